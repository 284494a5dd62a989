//! Interrupt vectors as words and as bytes.

ghost use Rattle.std.specs.Prelude.{◌≡◌};
ghost use Rattle.board.specs.States.{bytes_of};

use layout::VECTORS_LEN;

/// The bytes of vectors, low byte first.
pub(crate) fn bytes_of(vectors: [u64; 4]) -> [u8; VECTORS_LEN]
    ensures { result ≡ bytes_of vectors }
{
    let words = vectors.map(u64::to_le_bytes);
    match words.as_flattened().first_chunk() {
        Some(bytes) => *bytes,
        None => unreachable(),
    }
}

/// The words of vectors, low byte first.
pub(crate) fn words_of(bytes: &[u8; VECTORS_LEN]) -> [u64; 4]
    ensures { bytes_of result ≡ bytes.now }
{
    let (words, _) = bytes.as_chunks();
    match words {
        [a, b, c, d] => [*a, *b, *c, *d].map(u64::from_le_bytes),
        _ => unreachable(),
    }
}
