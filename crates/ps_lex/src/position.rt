//! Positions in a text.
ghost use Rattle.std.specs.Prelude.{◌≡◌};
ghost use Rattle.ps_lex.specs.Places.{start, behind, along, HasRoom};

/// A line and a column, both from 1 on, and how many bytes stand before; a column counts bytes.
#[derive(Clone, Copy, Debug, PartialEq, Eq)]
pub struct Position {
    /// The line, from 1 on.
    pub line: u32,
    /// The column, from 1 on.
    pub column: u32,
    /// How many bytes stand before.
    pub offset: u32,
}

impl Position {
    /// Where a text begins.
    pub(crate) fn start() -> Position
        ensures { result ≡ start }
    {
        Position {
            line: 1,
            column: 1,
            offset: 0,
        }
    }

    /// Goes behind the byte that stands here.
    #[inline(always)]
    #[tactic(auto, unfolding(crate::specs::Places::behind))]
    pub(crate) fn advance(&mut self, byte: u8)
        requires room { HasRoom 1 self.old }
        ensures { self.new ≡ behind self.old byte }
    {
        self.offset += 1;
        if byte == b'\n' {
            self.line += 1;
            self.column = 1;
        } else {
            self.column += 1;
        }
    }

    /// The position behind so many bytes of a line.
    pub(crate) fn along(self, count: u32) -> Position
        requires room { HasRoom count self }
        ensures { result ≡ along self count }
    {
        Position {
            line: self.line,
            column: self.column + count,
            offset: self.offset + count,
        }
    }
}
