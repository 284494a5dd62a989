//! The two authenticators that a command may use.

ghost use Rattle.std.specs.Prelude.{◌≡◌};
ghost use Rattle.commands.specs.Kind.{name_of, key_length, tag_length};

/// Which authenticator a command uses.
#[derive(Clone, Copy)]
pub enum Kind {
    Hmac,
    Cmac,
}

impl Kind {
    // A text of its own and no `Display`: it is pushed as it is, and its contract names its bytes.
    /// The authenticator's name, as it is printed.
    pub fn name(self) -> &'static str
        ensures { result.now ≡ name_of self }
    {
        match self {
            Kind::Hmac => "HMAC-SHA-256",
            Kind::Cmac => "AES-CMAC",
        }
    }

    // By the standards: that keys and tags of each are of one length is chance.
    /// The length of its keys.
    pub fn key_len(self) -> usize
        ensures { result ≡ key_length self }
    {
        match self {
            Kind::Hmac => 32,
            Kind::Cmac => 16,
        }
    }

    /// The length of its tags.
    pub fn tag_len(self) -> usize
        ensures { result ≡ tag_length self }
    {
        match self {
            Kind::Hmac => 32,
            Kind::Cmac => 16,
        }
    }
}
