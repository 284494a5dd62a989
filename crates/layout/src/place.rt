//! A place for an image.

ghost use Rattle.layout.specs.Placing.{Lies};

/// Blocks that an image fits in: from block `first` on, for `len` bytes. They have addresses and lie behind the
/// control blocks.
#[derive(Clone, Copy, PartialEq, Eq, Debug)]
pub struct Place {
    pub first: usize,
    pub len: u16,
    ghost lies: { Lies 112 first len },
}
