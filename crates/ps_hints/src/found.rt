//! What is found at a place.
ghost use Rattle.std.specs.Prelude.{◌≡◌, ◌≤◌, ◌<◌, IfSome, Some, true, length, slice_get};
ghost use Rattle.std.specs.Char.{encode_utf8};
ghost use Rattle.ps_hints.specs.Found.{IsFound, IsFront};

use crate::glyph::shown_character;
use crate::message::Message;
use crate::spot::Spot;
use crate::words::word_at_front;
use ps_io::NoMemory;

// The most bytes of a word that are shown.
const MOST_SHOWN: usize = 40;

/// What is found at a place.
#[derive(Clone, Copy)]
pub(crate) enum Found<'t> {
    /// The end of the text.
    TextEnd,
    /// The end of a line behind which no token stands.
    LineEnd,
    /// A byte that can't be shown.
    Byte(u8),
    /// A word, a number, a sign or another character of ASCII.
    Token(&'t [u8]),
    /// A character beyond ASCII.
    Character(char),
}

// So many bytes at the front, where there are as many.
#[tactic(auto, using(crate::proofs::Fronts::taken))]
fn front(bytes: &[u8], count: usize) -> Option<&[u8]>
    ensures front { IfSome result (λ front. IsFront front.now bytes.now) }
    ensures len { IfSome result (λ front. length front.now ≡ count) }
{
    if count <= bytes.len() {
        Some(&bytes[..count])
    } else {
        None
    }
}

// How many digits stand at the front.
fn digits_at_front(bytes: &[u8]) -> usize
    ensures { result ≤ length bytes.now }
{
    bytes
        .iter()
        .position(|byte| !byte.is_ascii_digit())
        .unwrap_or(bytes.len())
}

/// The number at the front: digits, and perhaps more of them behind a `/` or a `.`.
#[tactic(auto, using(crate::proofs::Fronts::taken))]
pub(crate) fn number_at_front(bytes: &[u8]) -> &[u8]
    ensures { IsFront result.now bytes.now }
{
    let (whole, behind) = bytes.split_at(digits_at_front(bytes));
    let part = match behind {
        [b'/' | b'.', digits @ ..] => digits_at_front(digits),
        _ => 0,
    };
    if whole.is_empty() || part == 0 {
        whole
    } else {
        front(bytes, whole.len() + 1 + part).unwrap_or(whole)
    }
}

// The sign at the front that has more bytes than one, if one stands there.
fn sign_at_front(bytes: &[u8]) -> Option<&[u8]>
    ensures front { IfSome result (λ sign. IsFront sign.now bytes.now) }
    ensures some { IfSome result (λ sign. 0 < length sign.now) }
{
    if bytes.starts_with(b"<->") {
        front(bytes, 3)
    } else if bytes.starts_with(b"->") || bytes.starts_with(b"<=") || bytes.starts_with(b">=") {
        front(bytes, 2)
    } else {
        None
    }
}

// Whether bytes begin with a character.
#[tactic(auto, using(crate::proofs::Fronts::begins))]
fn is_at_front(bytes: &[u8], c: char) -> bool
    ensures { result ≡ true → IsFront (encode_utf8 c) bytes.now }
{
    let mut room = [0; 4];
    bytes.starts_with(c.encode_utf8(&mut room).as_bytes())
}

// The character of ASCII at the front, as a token where it can be shown.
#[tactic(auto, using(crate::proofs::Fronts::taken))]
fn ascii_at_front(bytes: &[u8], first: u8) -> Found<'_>
    requires { slice_get bytes.now 0 ≡ Some first }
    ensures { IsFound bytes.now result }
{
    if first.is_ascii() && !first.is_ascii_control() {
        match front(bytes, 1) {
            Some(character) => Found::Token(character),
            None => Found::Byte(first),
        }
    } else {
        Found::Byte(first)
    }
}

// The character at the front.
fn character_at_front(bytes: &[u8]) -> Found<'_>
    ensures { IsFound bytes.now result }
{
    let Some(first) = bytes.first() else {
        return Found::TextEnd;
    };
    let Some(chunk) = bytes.utf8_chunks().next() else {
        return Found::Byte(*first);
    };
    match chunk.valid().chars().next() {
        Some(c) if !c.is_ascii() && is_at_front(bytes, c) => Found::Character(c),
        _ => ascii_at_front(bytes, *first),
    }
}

// Adds a character, where it can be seen, and its number.
fn push_character(message: &mut Message, c: char) -> Result<(), NoMemory> {
    if shown_character(c) != c || c.is_whitespace() {
        return message.push_code(c);
    }
    message.push('`')?;
    message.push(c)?;
    message.push_text("` (")?;
    message.push_code(c)?;
    message.push(')')
}

impl<'t> Found<'t> {
    /// What is found at a spot.
    pub(crate) fn at(spot: &Spot<'t>) -> Found<'t>
        ensures { IsFound spot.now.behind.now result }
    {
        let word = word_at_front(spot.behind);
        let number = number_at_front(spot.behind);
        if word.len() < number.len() {
            return Found::Token(number);
        }
        if !word.is_empty() {
            return Found::Token(word);
        }
        match sign_at_front(spot.behind) {
            Some(sign) => Found::Token(sign),
            None => character_at_front(spot.behind),
        }
    }

    /// Adds it to a message, the front alone where it is long.
    pub(crate) fn push_to(&self, message: &mut Message) -> Result<(), NoMemory> {
        match self {
            Found::TextEnd => message.push_text("the end of the text"),
            Found::LineEnd => message.push_text("the end of the line"),
            Found::Byte(byte) => {
                message.push_text("the byte ")?;
                message.push_number(u32::from(*byte))
            }
            Found::Token(token) => {
                message.push_text("`")?;
                match token.get(..MOST_SHOWN) {
                    Some(front) if MOST_SHOWN < token.len() => {
                        message.push_bytes(front)?;
                        message.push_text("...")?;
                    }
                    _ => message.push_bytes(token)?,
                }
                message.push_text("`")
            }
            Found::Character(c) => push_character(message, *c),
        }
    }
}
