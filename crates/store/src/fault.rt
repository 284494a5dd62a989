//! Faults: why a store did not do what it was asked, and where.

ghost use Rattle.std.specs.Prelude.{◌≡◌};
ghost use Rattle.store.specs.Faults.{arisen, passed};

/// Why a call was not done.
#[derive(Clone, Copy, PartialEq, Eq, Debug)]
pub enum Cause {
    /// The buffer has not 512 bytes.
    WrongBuffer,
    /// The block number is at or above the count.
    NoSuchBlock,
    /// The supply is gone.
    Dark,
}

/// A cause, with the place where it arose.
#[derive(Clone, Copy, PartialEq, Eq, Debug)]
pub struct Fault {
    pub cause: Cause,
    /// The block, as the store where the fault arose numbers it.
    pub origin: usize,
    /// The block, as the top layer numbers it.
    pub block: usize,
    /// How many layers the fault has passed; 255 stands for more, too.
    pub layers: u8,
}

impl Fault {
    /// A fault that arises here.
    pub fn new(cause: Cause, block: usize) -> Fault
        ensures { result ≡ arisen cause block }
    {
        Fault {
            cause,
            origin: block,
            block,
            layers: 0,
        }
    }

    /// The fault as the layer above tells it, which numbers the block its own way.
    pub fn pass(self, block: usize) -> Fault
        ensures { result ≡ passed self block }
    {
        Fault {
            block,
            layers: self.layers.saturating_add(1),
            ..self
        }
    }
}
