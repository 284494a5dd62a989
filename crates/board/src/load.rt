//! Load: the factory puts an image on a board.

ghost use Rattle.std.specs.Prelude.{◌≡◌, ◌<◌, ◌≤◌, List, length, MatchResult};
ghost use Rattle.layout.specs.Address.{blocks_of};
ghost use Rattle.board.specs.Answers.{cleared};
ghost use Rattle.board.specs.Calls.{Loads, loading, puts};
ghost use Rattle.board.specs.Loading.{Unplaced, FactoryPlace};
ghost use Rattle.board.specs.Results.{loaded};
ghost use Rattle.board.specs.Rows.{Row};
ghost use Rattle.board.specs.Stored.{pages, paged};
ghost use Rattle.board.specs.Writes.{Write};

use crate::answers::Supply;
use crate::buffers::{clear, is_store};
use crate::closing::{Content, put_all};
use crate::results::Denied;
use crate::states::Cold;
use crate::writes::put;
use control::Flag;
use layout::{BLOCK, FIRST_FREE, Image, Place, blocks_of};
use refusal::Refusal;
use store::Store;

impl Cold {
    // Lent one by one, as the caller has them; cleared by a line at the end of the call (see `clear`).
    /// Wakes the store and writes the factory's image into it, from block 4 on.
    pub fn load<S: Store>(
        self,
        store: &mut S,
        image: &[u8],
        scratch: &mut [u8],
    ) -> Result<Cold, Denied<Cold>>
        ensures { (ws : List Write) × Loads (S.medium store.old) image.now scratch.old (loaded ws result (S.medium store.new)) scratch.new }
    {
        let Some(scratch) = scratch.as_mut_array() else {
            return Err(Denied::Refused(self, Refusal::WrongLength));
        };
        let answer = self.fill(store, image, scratch);
        clear(scratch);
        answer
    }

    // The load but for the scratch buffer's end.
    fn fill<S: Store>(
        self,
        store: &mut S,
        image: &[u8],
        scratch: &mut [u8; BLOCK],
    ) -> Result<Cold, Denied<Cold>>
        ensures { (ws : List Write) × Loads (S.medium store.old) image.now scratch.old (loaded ws result (S.medium store.new)) (cleared scratch.old) }
    {
        match place_of(image, store.count()) {
            Ok((image, place)) => {
                store.wake();
                match write_load(store, place, image, scratch) {
                    Ok(()) => Ok(self),
                    Err(supply) => Err(Denied::Supply(self, supply)),
                }
            }
            Err(refusal) => Err(Denied::Refused(self, refusal)),
        }
    }
}

// The factory's image, and the place that it takes in a store of `count` blocks, or why it takes none.
fn place_of(bytes: &[u8], count: usize) -> Result<(Image<'_>, Place), Refusal>
    ensures { MatchResult result (λ p. (p.0.bytes.now ≡ bytes.now) × FactoryPlace count bytes.now p.1) (λ e. Unplaced count bytes.now e) }
{
    if !is_store(count) {
        return Err(Refusal::StoreSize);
    }
    let image = Image::read(bytes)?;
    match Place::new(FIRST_FREE, image.header().len, count) {
        Some(place) => Ok((image, place)),
        None => Err(Refusal::BadImage),
    }
}

// Lays a page of an image into the scratch buffer, and zeros after its end.
fn lay_page(page: &[u8], scratch: &mut [u8; BLOCK])
    requires { length page.now ≤ 512 }
    ensures { scratch.new ≡ paged page.now }
{
    clear(scratch);
    scratch[..page.len()].copy_from_slice(page);
}

// Writes the image, from block 4 on.
fn write_pages<S: Store>(
    store: &mut S,
    image: Image<'_>,
    scratch: &mut [u8; BLOCK],
) -> Result<(), Supply>
    requires { length image.bytes.now < 65536 }
    ensures { Row 1 (puts 4 (pages (blocks_of (length image.entry.bytes.now)) image.entry.bytes.now)) (S.medium store.old) result (S.medium store.new) }
{
    for (k, page) in image.bytes().chunks(BLOCK).enumerate() {
        lay_page(page, scratch);
        put(store, (k + 1) as u8, FIRST_FREE + k, scratch)?;
    }
    Ok(())
}

// The writes of a load.
fn write_load<S: Store>(
    store: &mut S,
    place: Place,
    image: Image<'_>,
    scratch: &mut [u8; BLOCK],
) -> Result<(), Supply>
    requires { (place.first ≡ 4) × (place.len ≡ length image.bytes.now) }
    ensures { Row 1 (loading image.entry.bytes.now) (S.medium store.old) result (S.medium store.new) }
{
    write_pages(store, image, scratch)?;
    let contents = [
        Content::Vectors(*image.vectors()),
        Content::Flag(Flag::Finished),
        Content::Pointer(place),
    ];
    put_all(store, (blocks_of(place.len) + 1) as u8, &contents, scratch)
}
