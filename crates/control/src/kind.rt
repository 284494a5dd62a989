//! The kinds of control blocks.

/// A control block, by its number.
#[derive(Clone, Copy, PartialEq, Eq, Debug, Drop)]
pub enum Control {
    /// EP: ERmin and ERmax of the image that starts, two bytes each, low byte first.
    Pointer = 0,
    /// IVTR: the interrupt vectors of that image.
    Vectors = 1,
    /// Whether an install is finished.
    Flag = 2,
    /// bEP: the same as EP for the image that is being installed.
    BufferPointer = 3,
}

/// What the flag block tells of the last install.
#[derive(Clone, Copy, PartialEq, Eq, Debug, Drop)]
pub enum Flag {
    Finished = 0,
    Unfinished = 1,
}
