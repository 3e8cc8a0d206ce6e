//! Strings of JSON.
ghost use Rattle.std.specs.Prelude.{◌≡◌, ◌<◌, ◌+◌, ◌∷◌, [], ◌^◌};
ghost use Rattle.ps_spoken.specs.Numbers.{Says};
ghost use Rattle.ps_spoken.specs.Strings.{byte_at, byte_text, hex_digit, hidden_at, hidden_from};
ghost use Rattle.ps_spoken.specs.Strings.{escaped_text, is_second, is_third, number_text, string_text};
ghost use Rattle.ps_spoken.specs.Strings.{text_at};

use crate::numbers::append;
use ps_io::NoMemory;

// Writes one byte.
fn byte(out: &mut Vec<u8>, b: u8) -> Result<(), NoMemory>
    ensures { Says result out.old.items out.new.items (b ∷ []) }
{
    out.push(b)?;
    Ok(())
}

// A digit to the base 16.
fn hex_digit(n: u16) -> u8
    requires { n < 16 }
    ensures { result ≡ hex_digit n }
{
    let digit = n as u8;
    if digit < 10 {
        b'0' + digit
    } else {
        b'a' + (digit - 10)
    }
}

// Writes a character by its number.
fn write_number(out: &mut Vec<u8>, n: u16) -> Result<(), NoMemory>
    ensures { Says result out.old.items out.new.items (number_text n) }
{
    append(out, b"\\u")?;
    byte(out, hex_digit(n / 4096))?;
    byte(out, hex_digit(n / 256 % 16))?;
    byte(out, hex_digit(n / 16 % 16))?;
    byte(out, hex_digit(n % 16))
}

// Writes a byte as it stands in a string.
#[tactic(auto, unfolding(crate::specs::Strings::byte_text))]
fn write_byte(out: &mut Vec<u8>, b: u8) -> Result<(), NoMemory>
    ensures { Says result out.old.items out.new.items (byte_text b) }
{
    if b == b'"' {
        append(out, b"\\\"")
    } else if b == b'\\' {
        append(out, b"\\\\")
    } else if b < 32 || b == 127 {
        write_number(out, u16::from(b))
    } else {
        byte(out, b)
    }
}

// The byte at a place, and 0 where none stands.
fn byte_at(bytes: &[u8], place: usize) -> u8
    ensures { result ≡ byte_at bytes.now place }
{
    match bytes.get(place) {
        Some(b) => *b,
        None => 0,
    }
}

// The number of the character that begins with three bytes, where a terminal must not get it.
fn hidden_from(a: u8, b: u8, c: u8) -> Option<u16>
    ensures { result ≡ hidden_from a b c }
{
    if a == 0xc2 && 0x80 <= b && b <= 0x9f {
        return Some(u16::from(b));
    }
    if a == 0xe2 && b == 0x80 && 0xaa <= c && c <= 0xae {
        return Some(0x1f80 + u16::from(c));
    }
    if a == 0xe2 && b == 0x81 && 0xa6 <= c && c <= 0xa9 {
        return Some(0x1fc0 + u16::from(c));
    }
    None
}

// The number of the character that begins at a place, where a terminal must not get it.
#[tactic(auto, unfolding(crate::specs::Strings::hidden_at))]
fn hidden_at(bytes: &[u8], place: usize) -> Option<u16>
    requires { place + 2 < 2 ^ 64 }
    ensures { result ≡ hidden_at bytes.now place }
{
    hidden_from(
        byte_at(bytes, place),
        byte_at(bytes, place + 1),
        byte_at(bytes, place + 2),
    )
}

// Whether the byte at a place is the second of such a character.
#[tactic(auto, unfolding(crate::specs::Strings::is_second))]
fn is_second(bytes: &[u8], place: usize) -> bool
    requires { place + 2 < 2 ^ 64 }
    ensures { result ≡ is_second bytes.now place }
{
    if place == 0 {
        return false;
    }
    hidden_at(bytes, place - 1).is_some()
}

// Whether it is the third of one.
#[tactic(auto, unfolding(crate::specs::Strings::is_third))]
fn is_third(bytes: &[u8], place: usize) -> bool
    requires { place + 2 < 2 ^ 64 }
    ensures { result ≡ is_third bytes.now place }
{
    if place < 2 {
        return false;
    }
    if byte_at(bytes, place - 2) != 0xe2 {
        return false;
    }
    hidden_at(bytes, place - 2).is_some()
}

// Writes the byte at a place as it stands in a string, or the character that begins there.
#[tactic(auto, unfolding(crate::specs::Strings::text_at))]
fn write_at(out: &mut Vec<u8>, bytes: &[u8], place: usize, b: u8) -> Result<(), NoMemory>
    requires { place + 2 < 2 ^ 64 }
    ensures { Says result out.old.items out.new.items (text_at bytes.now place b) }
{
    if is_second(bytes, place) {
        return Ok(());
    }
    if is_third(bytes, place) {
        return Ok(());
    }
    match hidden_at(bytes, place) {
        Some(n) => write_number(out, n),
        None => write_byte(out, b),
    }
}

// Writes bytes as they stand in a string.
fn write_escaped(out: &mut Vec<u8>, bytes: &[u8]) -> Result<(), NoMemory>
    ensures { Says result out.old.items out.new.items (escaped_text bytes.now) }
{
    for place in 0..bytes.len() {
        write_at(out, bytes, place, bytes[place])?;
    }
    Ok(())
}

/// Writes a string.
pub fn write_string(out: &mut Vec<u8>, bytes: &[u8]) -> Result<(), NoMemory>
    ensures { Says result out.old.items out.new.items (string_text bytes.now) }
{
    append(out, b"\"")?;
    write_escaped(out, bytes)?;
    append(out, b"\"")
}
