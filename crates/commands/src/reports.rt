//! What the commands print.

ghost use Rattle.std.specs.Prelude.{◌≡◌, ◌++◌, IfOk, string_bytes};
ghost use Rattle.commands.specs.Failure.{IsCause};
ghost use Rattle.commands.specs.Hex.{hex_of};
ghost use Rattle.commands.specs.Key.{key_of};
ghost use Rattle.commands.specs.Kind.{key_length};
ghost use Rattle.commands.specs.Report.{numbers_text, token_text, Reports, Judges, Ends};

use crate::failure::{Failure, failed};
use crate::hex::push_hex;
use crate::key::{KeyFault, read_key};
use crate::kinds::Kind;
use crate::tags::{check_confirmation, make_token};
use layout::{Header, Image, LEAST_LEN};
use planner::Request;
use refusal::Refusal;
use std::alloc::{AllocError, Global};

// Kind and key file come from two places of a command line, and only `read_key` and what is printed join them.
/// What `changeover token` makes of the bytes of its two files.
pub fn token_report(
    heap: Global,
    kind: Kind,
    key_file: &[u8],
    image: &[u8],
) -> Result<String, Failure<String>>
    ensures { Ends result (Reports kind (key_of (key_length kind) key_file.now) image.now) }
{
    let key = match read_key(heap, key_file, kind.key_len()) {
        Ok(key) => key,
        Err(failure) => return keyless(heap, kind, key_file, failure),
    };
    let image = match Image::read(image) {
        Ok(image) => image,
        Err(refusal) => return failed(image_text(heap, refusal, image)),
    };
    // As `token` leaves it, with zeros behind the tag: a copy of the front would be one thing more that can fail.
    let token = make_token(kind, key.as_slice(), image);
    let tag = &token[..kind.tag_len()];
    Ok(token_text(heap, kind, &image.header(), image.vectors(), tag)?)
}

/// What `changeover verify` makes of the bytes of its key file and of the values of its words.
pub fn verify_report(
    heap: Global,
    kind: Kind,
    key_file: &[u8],
    request: Request,
    confirmation: &[u8],
) -> Result<String, Failure<String>>
    ensures { Ends result (Judges kind (key_of (key_length kind) key_file.now) request.version request.nonce confirmation.now) }
{
    let key = match read_key(heap, key_file, kind.key_len()) {
        Ok(key) => key,
        Err(failure) => {
            request.give_up();
            return keyless(heap, kind, key_file, failure);
        }
    };
    match check_confirmation(kind, key.as_slice(), request, confirmation) {
        Ok(()) => Ok(String::from_str(heap, "yes\n")?),
        Err(refusal) => failed(refusal_text(heap, refusal)),
    }
}

// What a command answers that has no key.
fn keyless(
    heap: Global,
    kind: Kind,
    key_file: &[u8],
    failure: Failure<KeyFault>,
) -> Result<String, Failure<String>>
    ensures { Ends result (λ status text. (status ≡ 1) × IsCause failure) }
{
    failed(key_text(heap, kind, failure.cause()?, key_file.len()))
}

/// What an image says of itself: its length, its version and its nonce.
pub fn header_text(heap: Global, header: &Header) -> Result<String, AllocError>
    ensures { IfOk result (λ text. string_bytes text ≡ numbers_text header.now ++ hex_of header.now.nonce) }
{
    let len = header.len;
    let version = header.version;
    let mut text = format!(in heap; "length {len}\nversion {version}\nnonce ")?;
    push_hex(&mut text, &header.nonce)?;
    Ok(text)
}

// The lines that tell of an image and its token.
fn token_text(
    heap: Global,
    kind: Kind,
    header: &Header,
    vectors: &[u8],
    token: &[u8],
) -> Result<String, AllocError>
    ensures { IfOk result (λ text. string_bytes text ≡ token_text kind header.now vectors.now token.now) }
{
    let mut text = header_text(heap, header)?;
    text.push_str("\nvectors ")?;
    push_hex(&mut text, vectors)?;
    text.push_str("\nauthenticator ")?;
    text.push_str(kind.name())?;
    text.push_str("\ntoken ")?;
    push_hex(&mut text, token)?;
    text.push_str("\n")?;
    Ok(text)
}

fn key_text(heap: Global, kind: Kind, fault: KeyFault, len: usize) -> Result<String, AllocError> {
    match fault {
        KeyFault::WrongLength => {
            let number = Refusal::WrongLength.number();
            let name = kind.name();
            let key = kind.key_len();
            let digits = 2 * key;
            format!(in heap;
                "refusal {number}: the key file has {len} bytes; {name} takes {key} bytes, or {digits} hex digits\n"
            )
        }
        KeyFault::NotHex => String::from_str(
            heap,
            "the key file has a character that is no hex digit\n",
        ),
    }
}

fn refusal_text(heap: Global, refusal: Refusal) -> Result<String, AllocError> {
    let number = refusal.number();
    format!(in heap; "refusal {number}: {refusal}\n")
}

fn image_text(heap: Global, refusal: Refusal, image: &[u8]) -> Result<String, AllocError> {
    let number = refusal.number();
    let bytes = image.len();
    match image {
        [low, high, ..] => {
            let len = u16::from_le_bytes([*low, *high]);
            format!(in heap;
                "refusal {number}: {refusal}: it says that it has {len} bytes, of at least {LEAST_LEN}, and has {bytes}\n"
            )
        }
        _ => format!(in heap;
            "refusal {number}: {refusal}: it has {bytes} bytes, too few to say its length\n"
        ),
    }
}
