//! The token that an image is sent with.

ghost use Rattle.std.specs.Prelude.{◌≡◌, length, MatchResult};
ghost use Rattle.authenticator.specs.Meaning.{padded};
ghost use Rattle.layout.specs.Image.{IsImage};
ghost use Rattle.planner.specs.Token.{token_of, Refuses};

use crate::purpose::Purpose;
use authenticator::{Authenticator, TAG_BUFFER, tag_into};
use layout::Image;
use refusal::Refusal;

/// Writes the image's token, then zeros, into `out`. A refusal changes nothing.
pub fn token<K: Authenticator>(
    authenticator: &mut K,
    image: &[u8],
    out: &mut [u8],
) -> Result<(), Refusal>
    ensures key { K.key authenticator.new ≡ K.key authenticator.old }
    ensures answer { MatchResult result (λ _. (length out.old ≡ 32) × IsImage image.now) (λ e. Refuses out.old image.now e) }
    ensures state { MatchResult result (λ _. K.state authenticator.new ≡ K.means.begin (K.key authenticator.old)) (λ _. authenticator.new ≡ authenticator.old) }
    ensures out { MatchResult result (λ _. out.new ≡ padded (token_of K.means (K.key authenticator.old) image.now)) (λ _. out.new ≡ out.old) }
{
    if out.len() != TAG_BUFFER {
        return Err(Refusal::WrongLength);
    }
    Image::read(image)?;
    tag_into(authenticator, Purpose::Token.byte(), image, out)
}
