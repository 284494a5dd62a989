//! What a block tells, read as a control block.

ghost use Rattle.std.specs.Prelude.{◌≡◌, ◌≤◌, length, take, Decides, MatchOption, slice_index};
ghost use Rattle.layout.specs.Image.{word};
ghost use Rattle.control.specs.declared.kind.Control.TheVariants.{Vectors, Flag as FlagBlock};
ghost use Rattle.control.specs.Blocks.{block_of, size_of, flag_in, Stands, Filled, Checked};
ghost use Rattle.control.specs.Calls.{Reading, Pointed};

use crate::forming::{CHECK, check_of};
use crate::kind::{Control, Flag};
use layout::{BLOCK, Place, VECTORS_LEN};
use refusal::Refusal;

// ERmin and ERmax, two bytes each.
const POINTER_LEN: usize = 4;

const FLAG_LEN: usize = 1;

impl Control {
    /// The number of the block.
    pub fn block(self) -> usize
        ensures { result ≡ block_of self }
    {
        self as usize
    }
}

/// Whether `block` stands as a control block of that kind. A buffer that is no block is refused.
pub fn stands(control: Control, block: &[u8]) -> Result<bool, Refusal>
    ensures { Reading block.now (λ b. Decides b (Stands control block.now)) result }
{
    Ok(is_standing(control, whole(block)?))
}

/// The place that `block`, EP or bEP, points to in a store of `count` blocks, if it points to one. The block is legal if
/// the image there gives itself the same length. A buffer that is no block is refused.
pub fn read_pointer(block: &[u8], count: usize) -> Result<Option<Place>, Refusal>
    ensures { Reading block.now (Pointed count block.now) result }
{
    let block = whole(block)?;
    if !is_standing(Control::Pointer, block) {
        return Ok(None);
    }
    let (min, max) = ends(block);
    Ok(Place::between(min, max, count))
}

/// The interrupt vectors in `block`, if it stands. A buffer that is no block is refused.
pub fn read_vectors(block: &[u8]) -> Result<Option<&[u8; VECTORS_LEN]>, Refusal>
    ensures { Reading block.now (λ o. MatchOption o (Stands Vectors block.now → ⊥) (λ v. Stands Vectors block.now × (v.now ≡ take 32 block.now))) result }
{
    let block = whole(block)?;
    if !is_standing(Control::Vectors, block) {
        return Ok(None);
    }
    Ok(block.first_chunk::<VECTORS_LEN>())
}

/// The flag in `block`. A buffer that is no block is refused.
pub fn read_flag(block: &[u8]) -> Result<Flag, Refusal>
    ensures { Reading block.now (λ f. f ≡ flag_in block.now) result }
{
    if is_finished(whole(block)?) {
        Ok(Flag::Finished)
    } else {
        Ok(Flag::Unfinished)
    }
}

// The block that a buffer is, if it has the length of one.
fn whole(buffer: &[u8]) -> Result<&[u8; BLOCK], Refusal>
    ensures { Reading buffer.now (λ b. b.now ≡ buffer.now) result }
{
    <&[u8; BLOCK]>::try_from(buffer).map_err(|_| Refusal::WrongLength)
}

// ERmin and ERmax in a pointer block, each low byte first.
fn ends(block: &[u8; BLOCK]) -> (u16, u16)
    ensures { (result.0 ≡ word block.now 0) × (result.1 ≡ word block.now 2) }
{
    let [min_low, min_high, max_low, max_high, ..] = *block;
    (
        u16::from_le_bytes([min_low, min_high]),
        u16::from_le_bytes([max_low, max_high]),
    )
}

// Whether `block` stands as a flag block with 0.
fn is_finished(block: &[u8; BLOCK]) -> bool
    ensures { Decides result (Stands FlagBlock block.now × (slice_index block.now 0 ≡ 0)) }
{
    is_standing(Control::Flag, block) && block[0] == Flag::Finished as u8
}

// How many bytes a control block holds.
fn size_of(control: Control) -> usize
    ensures size { result ≡ size_of control }
    ensures bound { result ≤ 510 }
{
    match control {
        Control::Pointer | Control::BufferPointer => POINTER_LEN,
        Control::Vectors => VECTORS_LEN,
        Control::Flag => FLAG_LEN,
    }
}

// Whether `block` stands as a control block of that kind.
fn is_standing(control: Control, block: &[u8; BLOCK]) -> bool
    ensures { Decides result (Stands control block.now) }
{
    is_filled(block, size_of(control)) && is_checked(block)
}

// Whether zeros fill `block` from `used`, where what it holds by its kind ends, up to the check.
fn is_filled(block: &[u8; BLOCK], used: usize) -> bool
    requires { used ≤ 510 }
    ensures { Decides result (Filled used block.now) }
{
    block[used..CHECK].iter().all(|byte| *byte == 0)
}

// Whether the check of `block` is right.
fn is_checked(block: &[u8; BLOCK]) -> bool
    ensures { Decides result (Checked block.now) }
{
    let [high, low] = check_of(block);
    block[CHECK] == high && block[CHECK + 1] == low
}
