//! What the bytes so far stand in.
ghost use Rattle.std.specs.Prelude.{◌≡◌};
ghost use Rattle.ps_lex.specs.Lexing.{last_token};

use crate::{Digits, Numeral, Position, Token, Word};
use ps_text::Symbol;

/// What the last byte stands in.
#[derive(Debug, Drop)]
pub enum Mode {
    /// Outside of tokens.
    Between,
    /// Behind a `#`, in its line.
    Comment,
    /// A letter, with the letters, digits and `_` behind it.
    Word(Word),
    /// Digits without `/` or `.`.
    Whole(Digits),
    /// Digits, and a `/` that belongs to the number only if a digit follows.
    Slash { over: Digits, slash: Position },
    /// Digits, a `/`, and digits behind it.
    Quotient { over: Digits, under: Digits },
    /// Digits, and a `.` that belongs to the number only if a digit follows.
    Point { whole: Digits, point: Position },
    /// Digits with a `.` among them, and how many stand behind it, `MANY_DIGITS` for more.
    Decimal { all: Digits, decimals: u8 },
    /// A `-`, which is a symbol unless a `>` follows.
    Minus,
    /// A `<`.
    Less,
    /// A `<-`.
    LessMinus,
    /// A `>`.
    Greater,
    /// A whole symbol.
    Sign(Symbol),
    /// No token begins here.
    Bad(Position),
}

impl Mode {
    /// The token that ends with the bytes, if they end here.
    #[inline(always)]
    pub(crate) fn last_token(self) -> Option<Token>
        ensures { result ≡ last_token self }
    {
        match self {
            Mode::Word(letters) => Some(Token::Word(letters)),
            Mode::Whole(digits)
            | Mode::Slash { over: digits, .. }
            | Mode::Point { whole: digits, .. } => { Some(Token::Number(Numeral::Whole(digits))) }
            Mode::Quotient { over, under } => Some(Token::Number(Numeral::Quotient {
                over,
                under,
            })),
            Mode::Decimal { all, decimals } => Some(Token::Number(Numeral::Decimal {
                all,
                decimals,
            })),
            Mode::Minus => Some(Token::Sign(Symbol::Minus)),
            Mode::Sign(symbol) => Some(Token::Sign(symbol)),
            _ => None,
        }
    }
}
