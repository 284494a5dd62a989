//! An image: its header and its interrupt vectors.

ghost use Rattle.std.specs.Prelude.{◌≡◌, MatchResult};
ghost use Rattle.refusal.specs.declared.Refusal.TheVariants.{BadImage};
ghost use Rattle.layout.specs.Image.{IsImage, vectors_of};
ghost use Rattle.layout.specs.Header.{header_of};

use refusal::Refusal;

/// The length of the shortest image: the header, two bytes of program and the vectors.
pub const LEAST_LEN: u16 = 46;

/// The length of a nonce.
pub const NONCE_LEN: usize = 8;

/// The length of the interrupt vectors, with which an image ends.
pub const VECTORS_LEN: usize = 32;

/// The length of a header.
pub const HEADER_LEN: usize = 12;

/// What an image says of itself.
#[derive(Clone, Copy, PartialEq, Eq, Debug, Drop)]
pub struct Header {
    /// The length of the whole image.
    pub len: u16,
    pub version: u16,
    pub nonce: [u8; NONCE_LEN],
}

impl From<&[u8; HEADER_LEN]> for Header {
    ghost from_gives = { λ bytes h. h ≡ header_of bytes.now };

    fn from(bytes: &[u8; HEADER_LEN]) -> Header {
        // Named one by one: what is left of a pattern over an array is no array.
        let [
            len_low,
            len_high,
            version_low,
            version_high,
            a,
            b,
            c,
            d,
            e,
            f,
            g,
            h,
        ] = *bytes;
        Header {
            len: u16::from_le_bytes([len_low, len_high]),
            version: u16::from_le_bytes([version_low, version_high]),
            nonce: [a, b, c, d, e, f, g, h],
        }
    }
}

/// Bytes that are an image.
#[derive(Clone, Copy)]
pub struct Image<'a> {
    bytes: &'a [u8],
    ghost is: { IsImage bytes.now },
}

impl<'a> Image<'a> {
    /// The image that `bytes` are. Refused where they are none.
    pub fn read(bytes: &'a [u8]) -> Result<Image<'a>, Refusal>
        ensures { MatchResult result (λ i. IsImage bytes.now × (i.bytes.now ≡ bytes.now)) (λ e. (IsImage bytes.now → ⊥) × (e ≡ BadImage)) }
    {
        let Some(head) = bytes.first_chunk::<HEADER_LEN>() else {
            return Err(Refusal::BadImage);
        };
        let header = Header::from(head);
        if header.len < LEAST_LEN || header.len as usize != bytes.len() {
            return Err(Refusal::BadImage);
        }
        Ok(Image { bytes })
    }

    /// Its bytes.
    pub fn bytes(self) -> &'a [u8]
        ensures { result.now ≡ self.entry.bytes.now }
    {
        self.bytes
    }

    /// Its header.
    pub fn header(self) -> Header
        ensures { result ≡ header_of self.entry.bytes.now }
    {
        Header::from(self.bytes.first_chunk::<HEADER_LEN>().unwrap())
    }

    /// Its interrupt vectors.
    pub fn vectors(self) -> &'a [u8; VECTORS_LEN]
        ensures { result.now ≡ vectors_of self.entry.bytes.now }
    {
        let last = self.bytes.last_chunk::<VECTORS_LEN>();
        last.unwrap()
    }
}
