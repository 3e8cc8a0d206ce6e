//! The item in which a place of a text stands.
ghost use Rattle.std.specs.Prelude.{◌≤◌, length};

use crate::found::number_at_front;
use crate::spot::Spot;
use crate::words::{has_word, is_any, word_at_front};
use ps_text::Version;

/// Where the item begins that the bytes end with: behind the last `;` outside of comments, or at
/// the front.
pub(crate) fn item_start(bytes: &[u8]) -> usize
    ensures { result ≤ length bytes.now }
{
    let mut start: usize = 0;
    let mut in_comment = false;
    for (offset, byte) in bytes.iter().enumerate() {
        if *byte == b'\n' {
            in_comment = false;
        } else if *byte == b'#' {
            in_comment = true;
        } else if !in_comment && *byte == b';' {
            start = offset + 1;
        }
    }
    start
}

/// The bytes from the first on that stands outside of blanks and comments.
pub(crate) fn from_first_token(bytes: &[u8]) -> &[u8] {
    let mut in_comment = false;
    for (offset, byte) in bytes.iter().enumerate() {
        if *byte == b'\n' {
            in_comment = false;
        } else if *byte == b'#' {
            in_comment = true;
        } else if !in_comment && !byte.is_ascii_whitespace() {
            return &bytes[offset..];
        }
    }
    &[]
}

/// The version that the head of a text states, where it is a known one; else the first.
pub(crate) fn version_of(bytes: &[u8]) -> Version {
    match from_first_token(bytes).strip_prefix(b"psat") {
        Some(rest) if is_any(number_at_front(from_first_token(rest)), &["2"]) => Version::Two,
        _ => Version::One,
    }
}

/// What is open in an item at its end, and how the item begins.
#[derive(Clone, Copy)]
pub(crate) struct Item<'t> {
    text: &'t [u8],
    parens: usize,
    brackets: usize,
    has_sign: bool,
    is_in_comment: bool,
}

impl<'t> Item<'t> {
    // One byte more.
    fn pass(self, byte: u8) -> Item<'t> {
        if self.is_in_comment {
            return Item {
                is_in_comment: byte != b'\n',
                ..self
            };
        }
        match byte {
            b'#' => Item {
                is_in_comment: true,
                ..self
            },
            b'+' | b'-' if self.parens == 0 => Item {
                has_sign: true,
                ..self
            },
            b'(' => Item {
                parens: self.parens.saturating_add(1),
                ..self
            },
            b')' => Item {
                parens: self.parens.saturating_sub(1),
                ..self
            },
            b'[' => Item {
                brackets: self.brackets.saturating_add(1),
                ..self
            },
            b']' => Item {
                brackets: self.brackets.saturating_sub(1),
                ..self
            },
            _ => self,
        }
    }

    /// The item before a spot.
    pub(crate) fn before(spot: &Spot<'t>) -> Item<'t> {
        let text = from_first_token(&spot.before[item_start(spot.before)..]);
        let mut item = Item {
            text,
            parens: 0,
            brackets: 0,
            has_sign: false,
            is_in_comment: false,
        };
        for byte in text {
            item = item.pass(*byte);
        }
        item
    }

    /// Whether it is empty.
    pub(crate) fn is_empty(&self) -> bool {
        self.text.is_empty()
    }

    /// Whether a `(` is open.
    pub(crate) fn is_in_formula(&self) -> bool {
        self.parens > 0
    }

    /// Whether a `[` is open.
    pub(crate) fn is_in_interval(&self) -> bool {
        self.brackets > 0
    }

    /// Whether it is a query.
    pub(crate) fn is_query(&self) -> bool {
        is_any(word_at_front(self.text), &["query"])
    }

    /// Whether it is a linear sentence: it begins with a number, or has a sign outside of the
    /// parentheses.
    pub(crate) fn is_sum(&self) -> bool {
        self.has_sign || matches!(self.text.first(), Some(byte) if byte.is_ascii_digit())
    }

    /// Whether a sign stands outside of its parentheses.
    pub(crate) fn has_sign(&self) -> bool {
        self.has_sign
    }

    /// Whether a `given` stands in it.
    pub(crate) fn has_given(&self) -> bool {
        has_word(self.text, "given")
    }

    /// Whether a relation stands in it.
    pub(crate) fn has_relation(&self) -> bool {
        self.text.contains(&b'=')
    }
}
