//! Reads and writes by their numbers in a call.

ghost use Rattle.std.specs.Prelude.{◌≡◌, ◌<◌, true, false, [], ◌∷◌, length, MatchResult};
ghost use Rattle.store.specs.Medium.{held};
ghost use Rattle.board.specs.Poked.{unread};
ghost use Rattle.board.specs.Writes.{put as plan};
ghost use Rattle.board.specs.Rows.{Row};

use crate::answers::Supply;
use layout::BLOCK;
use store::Store;

// The number that stands for a read among a call's writes.
const READ: u8 = 0;

// Beside `put`: it takes the store as `&`, the bytes the other way, and has no number.
/// Reads a block of a store that may be dark.
pub(crate) fn read<S: Store>(
    store: &S,
    block: usize,
    scratch: &mut [u8; BLOCK],
) -> Result<(), Supply>
    requires { block < length (S.medium store.now).blocks }
    ensures { MatchResult result (λ _. ((S.medium store.now).live ≡ true) × (scratch.new ≡ held (S.medium store.now) block)) (λ s. ((S.medium store.now).live ≡ false) × (s ≡ unread (S.medium store.now) block)) }
{
    store
        .read(block, scratch)
        .map_err(|fault| Supply::from((READ, fault)))
}

/// Makes write number `write` of a call.
pub(crate) fn put<S: Store>(
    store: &mut S,
    write: u8,
    block: usize,
    bytes: &[u8],
) -> Result<(), Supply>
    ensures { Row write (plan block bytes.now ∷ []) (S.medium store.old) result (S.medium store.new) }
{
    store
        .write(block, bytes)
        .map_err(|fault| Supply::from((write, fault)))
}
