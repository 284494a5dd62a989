//! The authenticator: what every implementation owes, and all that generic code knows of one.

ghost use Rattle.std.specs.Prelude.{◌≡◌, ℕ, ◌≤◌, length, MatchResult, ◌≢◌};
ghost use Rattle.refusal.specs.declared.Refusal.TheVariants.{WrongLength};
ghost use Rattle.authenticator.specs.Meaning.{Meaning, padded};

use refusal::Refusal;

/// The length of the buffer that takes a tag of any authenticator.
pub const TAG_BUFFER: usize = 32;

/// Makes tags under one key, of a message that comes in parts.
pub trait Authenticator {
    /// The length of this authenticator's tags, 1 to 32.
    const TAG: usize;

    ghost TAG: { ℕ };

    ghost means: { Meaning };

    ghost key: { Self → means.Key };

    ghost state: { Self → means.State };

    /// Goes to the beginning, whatever was fed before.
    fn open(&mut self)
        ensures key { key self.new ≡ key self.old }
        ensures state { state self.new ≡ means.begin (key self.old) };

    /// Takes the next part of the message, of any length.
    fn feed(&mut self, part: &[u8])
        ensures key { key self.new ≡ key self.old }
        ensures state { state self.new ≡ means.feeds (key self.old) (state self.old) part.now };

    /// Writes the tag, then zeros, into `out`, and goes back to the beginning. Refused where `out` has not 32
    /// bytes; then nothing has changed.
    fn close(&mut self, out: &mut [u8]) -> Result<(), Refusal>
        ensures key { key self.new ≡ key self.old }
        ensures answer { MatchResult result (λ _. length out.old ≡ 32) (λ e. (e ≡ WrongLength) × (length out.old ≢ 32)) }
        ensures closed { MatchResult result (λ _. state self.new ≡ means.begin (key self.old)) (λ _. self.new ≡ self.old) }
        ensures out { MatchResult result (λ _. out.new ≡ padded (means.closes (key self.old) (state self.old))) (λ _. out.new ≡ out.old) };

    ghost tag: { TAG ≡ means.size };

    /// `TAG`, with its bounds promised.
    final fn tag_len() -> usize
        ensures value { result ≡ means.size }
        ensures bounds { (1 ≤ result) × (result ≤ 32) }
    {
        Self::TAG
    }
}
