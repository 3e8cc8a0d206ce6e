//! Places in a text.
ghost use Rattle.std.specs.Prelude.{◌≡◌, ◌≤◌, ◌<◌, ◌+◌, ◌^◌, [], length};
ghost use Rattle.ps_text.specs.Positions.{moved, position_behind};
ghost use Rattle.ps_hints.specs.Places.{position, IsKept};

/// A line and a column, both from 1 on; a column counts bytes.
#[derive(Clone, Copy, Debug, PartialEq, Eq)]
pub(crate) struct Place {
    /// The line.
    pub(crate) line: u32,
    /// The column.
    pub(crate) column: u32,
}

impl Place {
    // Where a text begins.
    fn start() -> Place
        ensures { position result ≡ position_behind [] }
    {
        Place { line: 1, column: 1 }
    }

    // The place behind a byte that stands here.
    #[tactic(auto, using(crate::proofs::Moves::moved_line, crate::proofs::Moves::moved_along))]
    fn behind(self, byte: u8) -> Place
        ensures moved { IsKept self → position result ≡ moved (position self) byte }
        ensures line { result.line ≤ self.line + 1 }
        ensures column { result.column ≤ self.column + 1 }
    {
        if byte == b'\n' {
            Place {
                line: self.line.saturating_add(1),
                column: 1,
            }
        } else {
            Place {
                line: self.line,
                column: self.column.saturating_add(1),
            }
        }
    }

    /// The place behind some bytes.
    pub(crate) fn behind_all(bytes: &[u8]) -> Place
        ensures { length bytes.now + 1 < 2 ^ 32 → position result ≡ position_behind bytes.now }
    {
        let mut place = Place::start();
        for byte in bytes {
            place = place.behind(*byte);
        }
        place
    }

    /// How many bytes stand before the place, or all of them where it isn't in the text.
    pub(crate) fn offset_in(self, bytes: &[u8]) -> usize
        ensures { result ≤ length bytes.now }
    {
        let mut here = Place::start();
        for (offset, byte) in bytes.iter().enumerate() {
            if here == self {
                return offset;
            }
            here = here.behind(*byte);
        }
        bytes.len()
    }
}

/// Where the last token of some bytes ends: behind it stand only blanks and comments.
pub(crate) fn end_of_tokens(bytes: &[u8]) -> usize
    ensures { result ≤ length bytes.now }
{
    let mut end: usize = 0;
    let mut in_comment = false;
    for (offset, byte) in bytes.iter().enumerate() {
        if *byte == b'\n' {
            in_comment = false;
        } else if *byte == b'#' {
            in_comment = true;
        } else if !in_comment && !byte.is_ascii_whitespace() {
            end = offset + 1;
        }
    }
    end
}
