//! The words of a command line.

use commands::Kind;

/// How the program is used.
pub const USAGE: &str = "usage:
  changeover token [--cmac] KEYFILE IMAGEFILE
      make the token of an image
  changeover verify [--cmac] KEYFILE VERSION NONCE CONFIRMATION
      say whether a board's confirmation is the one for a version and a nonce
  changeover image IMAGEFILE [BLOCK]
      say where an image lies from a block on, 4 unless said
  changeover watch TRACEFILE [BLOCK LENGTH]
      judge the cycles of a trace, while an image of that length runs from that block on, or none
  changeover help
      say how it is used

KEYFILE       32 bytes for HMAC-SHA-256, 16 for AES-CMAC (--cmac); or twice as many hex digits, and at most a newline
IMAGEFILE     the image's bytes
VERSION       a number from 0 to 65535
NONCE         16 hex digits, in the order of the bytes in the image
CONFIRMATION  hex digits
BLOCK         a number from 4 to 111
TRACEFILE     a cycle a line: PC, then w ADDRESS, d ADDRESS, i, as they apply
";

/// A command line, taken apart.
pub enum Command<'a> {
    Help,
    Token {
        kind: Kind,
        key_file: &'a str,
        image_file: &'a str,
    },
    Verify {
        kind: Kind,
        key_file: &'a str,
        version: &'a str,
        nonce: &'a str,
        confirmation: &'a str,
    },
    Image {
        file: &'a str,
        block: &'a str,
    },
    /// The watch, while an image of that length runs from that block on, or none.
    Watch {
        file: &'a str,
        running: Option<(&'a str, &'a str)>,
    },
    /// A command that there is, with other words behind it than it takes.
    Misused(&'a str),
    Unknown(&'a str),
}

/// The command that the words after the program's name give.
pub fn parse(words: &[String]) -> Command<'_> {
    match words {
        [] => Command::Help,
        [name, flag, rest @ ..] if flag.as_str() == "--cmac" => parse_command(
            name.as_str(),
            Kind::Cmac,
            rest,
        ),
        [name, rest @ ..] => parse_command(name.as_str(), Kind::Hmac, rest),
    }
}

fn parse_command<'a>(name: &'a str, kind: Kind, rest: &'a [String]) -> Command<'a> {
    match (name, kind, rest) {
        ("help", Kind::Hmac, []) => Command::Help,
        ("token", _, [key_file, image_file]) => {
            Command::Token {
                kind,
                key_file: key_file.as_str(),
                image_file: image_file.as_str(),
            }
        }
        ("verify", _, [key_file, version, nonce, confirmation]) => Command::Verify {
            kind,
            key_file: key_file.as_str(),
            version: version.as_str(),
            nonce: nonce.as_str(),
            confirmation: confirmation.as_str(),
        },
        ("image", Kind::Hmac, [file]) => Command::Image {
            file: file.as_str(),
            block: "4",
        },
        ("image", Kind::Hmac, [file, block]) => Command::Image {
            file: file.as_str(),
            block: block.as_str(),
        },
        ("watch", Kind::Hmac, [file]) => Command::Watch {
            file: file.as_str(),
            running: None,
        },
        ("watch", Kind::Hmac, [file, block, len]) => {
            Command::Watch {
                file: file.as_str(),
                running: Some((block.as_str(), len.as_str())),
            }
        }
        ("help" | "token" | "verify" | "image" | "watch", _, _) => Command::Misused(name),
        (unknown, _, _) => Command::Unknown(unknown),
    }
}
