//! The control blocks that a call writes.

ghost use Rattle.std.specs.Prelude.{◌≡◌, ◌+◌, ◌≤◌, [], ◌∷◌, length};
ghost use Rattle.control.specs.Calls.{Forms};
ghost use Rattle.board.specs.Calls.{closing};
ghost use Rattle.board.specs.Planned.{planned, plans};
ghost use Rattle.board.specs.Rows.{Row};
ghost use Rattle.board.specs.States.{bytes_of};

use crate::answers::Supply;
use crate::vectors::bytes_of;
use crate::writes::put;
use control::{Control, Flag, form_flag, form_pointer, form_vectors};
use layout::{BLOCK, Place, VECTORS_LEN};
use refusal::Refusal;
use store::Store;

// The cases of `Control`, each with what it holds.
/// A control block, with what it is to hold.
#[derive(Clone, Copy)]
pub(crate) enum Content {
    /// EP of the image at a place.
    Pointer(Place),
    /// IVTR.
    Vectors([u8; VECTORS_LEN]),
    Flag(Flag),
    /// bEP of the image at a place.
    BufferPointer(Place),
}

impl Content {
    // Which block it is.
    fn block(self) -> usize
        ensures { result ≡ (planned self).block }
    {
        match self {
            Content::Pointer(_) => Control::Pointer.block(),
            Content::Vectors(_) => Control::Vectors.block(),
            Content::Flag(_) => Control::Flag.block(),
            Content::BufferPointer(_) => Control::BufferPointer.block(),
        }
    }

    // Forms the block in the scratch buffer.
    fn form(self, scratch: &mut [u8; BLOCK]) -> Result<(), Refusal>
        ensures { Forms scratch.old (planned self).bytes result scratch.new }
    {
        match self {
            Content::Pointer(place) => form_pointer(place, scratch),
            Content::Vectors(vectors) => form_vectors(&vectors, scratch),
            Content::Flag(flag) => form_flag(flag, scratch),
            Content::BufferPointer(place) => form_pointer(place, scratch),
        }
    }
}

// Write number `write` is a control block.
// Store and scratch buffer are lent one by one, as the callers have them.
fn put_content<S: Store>(
    store: &mut S,
    write: u8,
    content: Content,
    scratch: &mut [u8; BLOCK],
) -> Result<(), Supply>
    ensures { Row write (planned content ∷ []) (S.medium store.old) result (S.medium store.new) }
{
    content.form(scratch).unwrap();
    put(store, write, content.block(), scratch)
}

/// Writes control blocks one after the other, from number `write` on.
pub(crate) fn put_all<S: Store>(
    store: &mut S,
    write: u8,
    contents: &[Content],
    scratch: &mut [u8; BLOCK],
) -> Result<(), Supply>
    requires { write + length contents.now ≤ 255 }
    ensures { Row write (plans contents.now) (S.medium store.old) result (S.medium store.new) }
{
    for (i, content) in contents.iter().enumerate() {
        put_content(store, write + i as u8, *content, scratch)?;
    }
    Ok(())
}

/// The writes that end an install, from number `write` on.
pub(crate) fn close<S: Store>(
    store: &mut S,
    write: u8,
    place: Place,
    vectors: [u64; 4],
    scratch: &mut [u8; BLOCK],
) -> Result<(), Supply>
    requires { write ≤ 3 }
    ensures { Row write (closing place.first place.len (bytes_of vectors)) (S.medium store.old) result (S.medium store.new) }
{
    let contents = [
        Content::Pointer(place),
        Content::Vectors(bytes_of(vectors)),
        Content::Flag(Flag::Finished),
    ];
    put_all(store, write, &contents, scratch)
}
