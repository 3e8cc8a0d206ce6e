//! A piece of a problem's text, byte by byte.
ghost use Rattle.std.specs.Prelude.{◌<◌, ◌≤◌, ◌+◌, ◌^◌, length};
ghost use Rattle.ps_read.specs.Answers.{IsWaiting};
ghost use Rattle.ps_read.specs.Takings.{HasPassed, IsTaken};

use crate::read_error::ReadError;
use crate::reader::Reader;

// Passes bytes at the front of some that tell nothing, before the text's end, and gives the bytes
// that are left.
fn pass<'a>(reader: &mut Reader, bytes: &'a [u8]) -> &'a [u8]
    requires waits { IsWaiting reader.old }
    requires room { reader.old.lexer.here.offset + length bytes.now + 1 < 2 ^ 32 }
    ensures passed { HasPassed bytes.now reader.old result.now reader.new }
    ensures shorter { length result.now ≤ length bytes.now }
{
    if reader.is_done() {
        return bytes;
    }
    reader.pass(bytes)
}

/// Takes the bytes of a piece, up to the first that shows where the text and the blanks behind it
/// end: it stands there, and answered is how many of the piece's stand before it. None is, if all
/// are taken. Else the first refusal is answered.
pub(crate) fn take(reader: &mut Reader, piece: &[u8]) -> Result<Option<u32>, ReadError>
    requires waits { IsWaiting reader.old }
    requires room { reader.old.lexer.here.offset + length piece.now + 1 < 2 ^ 32 }
    ensures { IsTaken piece.now reader.old reader.new result }
{
    let mut left = piece;
    while let [byte, more @ ..] = left {
        if let Some(_place) = reader.feed(*byte)? {
            return Ok(Some((piece.len() - left.len()) as u32));
        }
        left = pass(reader, more);
    }
    Ok(None)
}
