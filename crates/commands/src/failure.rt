//! Why something was not made.

ghost use Rattle.std.specs.Prelude.{◌≡◌, MatchResult, Err};
ghost use Rattle.commands.specs.declared.failure.Failure.TheVariants as failure;

use std::alloc::AllocError;

/// Why something was not made: for a cause, or since there was no memory.
// Both cases are failures: it is what stands in the `Err` of a Result.
#[derive(Clone, Copy, PartialEq, Eq, Debug, Drop)]
pub enum Failure<E> {
    Cause(E),
    Memory(AllocError),
}

impl<E> From<AllocError> for Failure<E> {
    ghost from_gives = { λ e f. f ≡ failure.Memory e };

    fn from(e: AllocError) -> Failure<E> {
        Failure::Memory(e)
    }
}

impl<E> Failure<E> {
    /// The cause, if there is one: by `?` the want of memory is passed on.
    pub fn cause(self) -> Result<E, AllocError>
        ensures { MatchResult result (λ cause. self ≡ failure.Cause cause) (λ e. self ≡ failure.Memory e) }
    {
        match self {
            Failure::Cause(cause) => Ok(cause),
            Failure::Memory(e) => Err(e),
        }
    }
}

/// A failure whose cause is told by a text.
pub fn failed<T>(text: Result<String, AllocError>) -> Result<T, Failure<String>>
    ensures { MatchResult text (λ t. result ≡ Err (failure.Cause t)) (λ e. result ≡ Err (failure.Memory e)) }
{
    Err(Failure::Cause(text?))
}
