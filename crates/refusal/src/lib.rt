//! The numbers by which calls refuse, and their words.

#![tactic(auto)]

ghost use Rattle.std.specs.Prelude.{◌≡◌};
ghost use Rattle.refusal.specs.Numbers.{number_of};

use std::fmt;

/// Why a call refused. The number is the one that documents and programs print.
#[derive(Clone, Copy, PartialEq, Eq, Debug, Drop)]
pub enum Refusal {
    /// The store has fewer than 8 or more than 112 blocks.
    StoreSize = 1,
    /// A key or a buffer has another length than the call asks for.
    WrongLength = 2,
    /// The bytes are no image: fewer than 2, a length field below 46, or one unlike their number. Or the image goes past
    /// the end of the store, or of the addresses.
    BadImage = 3,
    /// The version is not above the running one.
    NotNewer = 4,
    /// A token or a confirmation has not the length of the authenticator's tags.
    TagLength = 5,
    /// The token is not the tag.
    WrongToken = 6,
    /// The block is a control block, or not one of the store's that have addresses.
    BlockRange = 7,
    /// The block is one of the running image's.
    RunningBlock = 8,
    /// The cycle's PC lies in the core's own region.
    CorePc = 9,
    /// The store below did not read or write. The answer tells the write and the store's fault.
    Supply = 10,
    /// Nothing can be started. The answer tells the block that is to blame.
    NotLoaded = 11,
    /// The confirmation is not the tag.
    WrongConfirmation = 12,
}

impl Refusal {
    /// The refusal's number.
    pub fn number(self) -> u8
        ensures { result ≡ number_of self }
    {
        self as u8
    }
}

impl fmt::Display for Refusal {
    fn fmt<W: fmt::Write>(&self, f: &mut fmt::Formatter<W>) -> fmt::Result {
        f.write_str(match self {
            Refusal::StoreSize => "the store has too few or too many blocks",
            Refusal::WrongLength => "a key or a buffer has a wrong length",
            Refusal::BadImage => "the bytes are not an image",
            Refusal::NotNewer => "the version is not above the running one",
            Refusal::TagLength => "it has not the length of a tag",
            Refusal::WrongToken => "the token is not the tag",
            Refusal::BlockRange => "the block may not be written",
            Refusal::RunningBlock => "the block is one of the running image's",
            Refusal::CorePc => "the PC lies in the core's own region",
            Refusal::Supply => "the store did not read or write",
            Refusal::NotLoaded => "nothing can be started",
            Refusal::WrongConfirmation => "the confirmation is not the tag",
        })
    }
}
