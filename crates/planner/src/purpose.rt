//! What a tag is for.

ghost use Rattle.std.specs.Prelude.{◌≡◌};
ghost use Rattle.planner.specs.Purpose.{byte_of};

/// What a tag is for. Its byte goes ahead of the message that is tagged, and keeps tags for one purpose apart from those
/// for the other under the same key.
#[derive(Clone, Copy, PartialEq, Eq, Debug, Drop)]
pub enum Purpose {
    /// An image is sent with it.
    Token = 0,
    /// A board writes it for an installed image.
    Confirmation = 1,
}

impl Purpose {
    /// The byte ahead of the message.
    pub fn byte(self) -> u8
        ensures { result ≡ byte_of self }
    {
        self as u8
    }
}
