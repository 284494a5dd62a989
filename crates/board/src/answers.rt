//! What calls answer.

ghost use Rattle.std.specs.Prelude.{◌≡◌};
ghost use Rattle.board.specs.States.{launch_of};

use layout::Place;
use refusal::Refusal;
use store::Fault;

/// Where the start code goes.
#[derive(Clone, Copy, PartialEq, Eq, Debug)]
pub struct Launch {
    /// ERmin, the address of the image's first byte.
    pub min: u16,
    /// ERmax, the address of its last byte.
    pub max: u16,
    /// Where its program begins.
    pub entry: u16,
}

impl From<Place> for Launch {
    ghost from_gives = { λ place launch. launch ≡ launch_of place };

    fn from(place: Place) -> Launch {
        Launch {
            min: place.min(),
            max: place.max(),
            entry: place.entry(),
        }
    }
}

/// The values of refusal 10: the store below did not read or write.
#[derive(Clone, Copy, PartialEq, Eq, Debug)]
pub struct Supply {
    /// Which of the call's writes it was, from 1; 0 for a read.
    // A number and no option, as the answer is printed.
    pub write: u8,
    /// What the store answered.
    pub fault: Fault,
}

impl From<(u8, Fault)> for Supply {
    ghost from_gives = { λ p r. (r.write ≡ p.0) × (r.fault ≡ p.1) };

    fn from(p: (u8, Fault)) -> Supply {
        let (write, fault) = p;
        Supply { write, fault }
    }
}

/// What a call answered.
#[derive(Clone, Copy, PartialEq, Eq, Debug)]
pub enum Answer {
    /// Load, stage, leave and reset did what they were asked.
    Done,
    /// Start: an image runs, and nothing is confirmed.
    Runs(Launch),
    /// Start and install: an image runs, and its confirmation stands in the register.
    Confirmed(Launch),
    /// Cycle: the verdict is pass.
    Passes,
    /// Cycle: the verdict is reset.
    Resets,
    /// Offer: the token is the tag.
    Matches,
    /// Refusals 1 to 9, by their numbers.
    Refused(Refusal),
    /// Refusal 10, with the write and the store's fault.
    Supply(Supply),
    /// Refusal 11, with the block that is to blame.
    NotLoaded(usize),
}
