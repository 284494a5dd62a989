//! Where an image lies.

ghost use Rattle.std.specs.Prelude.{◌≡◌, MatchResult};
ghost use Rattle.refusal.specs.declared.Refusal.TheVariants.{BadImage};
ghost use Rattle.layout.specs.Image.{IsImage, length_of};
ghost use Rattle.layout.specs.Placing.{Lies};
ghost use Rattle.commands.specs.Failure.{IfCause};

use commands::{Failure, header_text};
use layout::{
    ADDRESSED, BLOCK, CONTROL_GUARDED, Header, Image, Place, VECTORS_LEN, address, blocks_of,
};
use refusal::Refusal;
use std::alloc::{AllocError, Global};

/// The lines that tell where `image` lies from block `first` on: refused with 3 where it is no image, or where no such
/// image can lie there.
pub fn image_text(heap: Global, image: &[u8], first: usize) -> Result<String, Failure<Refusal>>
    ensures { MatchResult result (λ _. IsImage image.now × Lies 112 first (length_of image.now)) (λ f. IfCause f (λ e. (e ≡ BadImage) × (IsImage image.now × Lies 112 first (length_of image.now) → ⊥))) }
{
    let image = match Image::read(image) {
        Ok(image) => image,
        Err(refusal) => return Err(Failure::Cause(refusal)),
    };
    let header = image.header();
    match Place::new(first, header.len, ADDRESSED) {
        Some(place) => Ok(text(heap, &header, place, image.vectors())?),
        None => Err(Failure::Cause(Refusal::BadImage)),
    }
}

fn text(
    heap: Global,
    header: &Header,
    place: Place,
    vectors: &[u8; VECTORS_LEN],
) -> Result<String, AllocError> {
    let mut text = header_text(heap, header)?;
    text.push_str("\n")?;
    let places = places(heap, place)?;
    text.push_str(places.as_str())?;
    push_vectors(heap, &mut text, vectors)?;
    Ok(text)
}

fn places(heap: Global, place: Place) -> Result<String, AllocError> {
    let first = place.first;
    let last = first + blocks_of(place.len) - 1;
    let min = place.min();
    let max = place.max();
    let entry = place.entry();
    match (
        address(0, 0),
        address(CONTROL_GUARDED - 1, BLOCK - 1),
        address(last, BLOCK - 1),
    ) {
        (Some(control_min), Some(control_max), Some(tail)) => format!(in heap;
            "blocks {first} to {last}\nERmin {min}\nERmax {max}\nentry {entry}\nexecutable {min} to {max}\nguarded {control_min} to {control_max}, {min} to {tail}\n"
        ),
        _ => unreachable(),
    }
}

// One line for each interrupt line, from 0: the address that its vector holds.
fn push_vectors(
    heap: Global,
    text: &mut String,
    vectors: &[u8; VECTORS_LEN],
) -> Result<(), AllocError> {
    for (i, pair) in vectors.chunks_exact(2).enumerate() {
        if let [low, high] = pair {
            let vector = u16::from_le_bytes([*low, *high]);
            let line = format!(in heap; "vector {i} {vector}\n")?;
            text.push_str(line.as_str())?;
        }
    }
    Ok(())
}
