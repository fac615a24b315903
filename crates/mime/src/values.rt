// What values mean.
ghost use Rattle.std.specs.Prelude.{◌≡◌, ◌∷◌};
ghost use Rattle.mime.specs.Values.{between, unquoted};
ghost use Rattle.abnf.specs.Strings.{alike};
ghost use Rattle.std.specs.Iterator.{YieldsFirst, item_count};
ghost use Rattle.mime.specs.Meanings.{Next, GoesOn, meanings};

use abnf::strings::is_alike;
use fields::bytes::{Class, Wsp};
use lexical::span::Taken;

// The next byte of what is meant, where a "\" stands before `tail`.
fn behind_backslash<'a>(tail: &'a [u8]) -> Taken<'a, u8>
    ensures { Next (92 ∷ tail.now) result }
{
    match tail {
        [byte, rest @ ..] => Taken { value: *byte, rest },
        [] => Taken {
            value: b'\\',
            rest: tail,
        },
    }
}

// The next byte of what is meant, where a CR stands before `tail`.
fn behind_cr<'a>(tail: &'a [u8]) -> Taken<'a, u8>
    ensures { Next (13 ∷ tail.now) result }
{
    match tail {
        [b'\n', byte, rest @ ..] if Wsp::holds(*byte) => Taken { value: *byte, rest },
        _ => Taken {
            value: b'\r',
            rest: tail,
        },
    }
}

// The next byte of what `s` means behind a first quote; none at the last quote.
fn next_meant<'a>(s: &'a [u8]) -> Option<Taken<'a, u8>>
    ensures { GoesOn s.now result }
{
    let [byte, rest @ ..] = s else {
        return None;
    };
    match *byte {
        b'"' => None,
        b'\\' => Some(behind_backslash(rest)),
        b'\r' => Some(behind_cr(rest)),
        _ => Some(Taken { value: *byte, rest }),
    }
}

// The bytes that a text behind a first quote means.
#[derive(Drop)]
struct Meanings<'a>(&'a [u8]);

impl<'a> Iterator for Meanings<'a> {
    type Item = u8;

    ghost next_gives = { YieldsFirst meanings };

    ghost remaining = { item_count meanings };

    fn next(&mut self) -> Option<u8> {
        let m = next_meant(self.0)?;
        self.0 = m.rest;
        Some(m.value)
    }
}

// Whether what `s` means behind a first quote is `known`.
fn inside_means(s: &[u8], known: &[u8]) -> bool
    ensures { result ≡ alike (between s.now) known.now }
{
    Meanings(s)
        .map(|b| b.to_ascii_lowercase())
        .eq(known.iter().map(|b| b.to_ascii_lowercase()))
}

// Whether a value means `known`.
pub fn means(text: &[u8], known: &[u8]) -> bool
    ensures { result ≡ alike (unquoted text.now) known.now }
{
    match text {
        [b'"', inside @ ..] => inside_means(inside, known),
        _ => is_alike(text, known),
    }
}
