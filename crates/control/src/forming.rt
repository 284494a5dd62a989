//! Control blocks are formed in a buffer.

ghost use Rattle.std.specs.Prelude.{◌≡◌, ◌/◌, ◌%◌, ◌≤◌, [], ◌∷◌, length, take, slice_set};
ghost use Rattle.control.specs.Blocks.{body, formed, pointer_to, flag_block};
ghost use Rattle.control.specs.Calls.{Forms, FormsVectors};
ghost use Rattle.control.specs.Crc.{crc_of};

use crate::crc::crc16;
use crate::kind::Flag;
use layout::{BLOCK, Place, VECTORS_LEN};
use refusal::Refusal;

/// Where the check begins; zeros fill a block up to it.
pub const CHECK: usize = 510;

/// Forms the pointer block, EP or bEP, of an image at `place`. A refusal changes nothing.
pub fn form_pointer(place: Place, block: &mut [u8]) -> Result<(), Refusal>
    ensures { Forms block.old (pointer_to place.first place.len) result block.new }
{
    let [min_low, min_high] = place.min().to_le_bytes();
    let [max_low, max_high] = place.max().to_le_bytes();
    form(&[min_low, min_high, max_low, max_high], block)
}

/// Forms the block of an image's interrupt vectors. A refusal, also where they are not 32, changes nothing.
pub fn form_vectors(vectors: &[u8], block: &mut [u8]) -> Result<(), Refusal>
    ensures { FormsVectors block.old vectors.now result block.new }
{
    if vectors.len() != VECTORS_LEN {
        return Err(Refusal::WrongLength);
    }
    form(vectors, block)
}

/// Forms the flag block. A refusal changes nothing.
pub fn form_flag(flag: Flag, block: &mut [u8]) -> Result<(), Refusal>
    ensures { Forms block.old (flag_block flag) result block.new }
{
    form(&[flag as u8], block)
}

// Forms the block that holds `held`.
fn form(held: &[u8], block: &mut [u8]) -> Result<(), Refusal>
    requires { length held.now ≤ 510 }
    ensures { Forms block.old (formed held.now) result block.new }
{
    let Some(block) = block.as_mut_array::<BLOCK>() else {
        return Err(Refusal::WrongLength);
    };
    lay(held, block);
    write_check(block);
    Ok(())
}

// Lays `held` at the start of a block, and zeros up to the check.
fn lay(held: &[u8], block: &mut [u8; BLOCK])
    requires { length held.now ≤ 510 }
    ensures { take 510 block.new ≡ body held.now }
{
    let used = held.len();
    block[..used].copy_from_slice(held);
    block[used..CHECK].fill(0);
}

// Writes the check of a block.
fn write_check(block: &mut [u8; BLOCK])
    ensures { block.new ≡ slice_set (slice_set block.old 510 (crc_of (take 510 block.old) / 256)) 511 (crc_of (take 510 block.old) % 256) }
{
    let [high, low] = check_of(block);
    block[CHECK] = high;
    block[CHECK + 1] = low;
}

/// The check that is right for a block, as it stands in it: high byte first.
pub(crate) fn check_of(block: &[u8; BLOCK]) -> [u8; 2]
    ensures { result ≡ crc_of (take 510 block.now) / 256 ∷ crc_of (take 510 block.now) % 256 ∷ [] }
{
    crc16(&block[..CHECK]).to_be_bytes()
}
