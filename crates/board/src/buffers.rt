//! What a call is lent: buffers and a store.

ghost use Rattle.std.specs.Prelude.{◌≡◌, ◌≤◌, Decides};
ghost use Rattle.board.specs.Answers.{cleared};

use layout::ADDRESSED;

// The number of blocks of the smallest store.
const LEAST_COUNT: usize = 8;

/// Zeros a lent buffer: ahead of its use, or where a call ends.
// By a line and no guard: a guard needs a type with a `drop`, and in each call the same function more that it has now.
pub(crate) fn clear(buffer: &mut [u8])
    ensures { buffer.new ≡ cleared buffer.old }
{
    buffer.fill(0);
}

/// Whether a store may have so many blocks.
pub(crate) fn is_store(count: usize) -> bool
    ensures { Decides result ((8 ≤ count) × (count ≤ 112)) }
{
    (LEAST_COUNT..=ADDRESSED).contains(&count)
}
