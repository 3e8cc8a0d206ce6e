//! Characters as they are shown: none that moves the cursor, but for the tab.
ghost use Rattle.std.specs.Prelude.{◌≡◌, ◌≤◌, ◌&&◌, nat_lt, not, false};
ghost use Rattle.std.specs.Char.{is_control};
ghost use Rattle.ps_hints.specs.Shown.{columns, shown, is_command};

use unicode_width::UnicodeWidthChar;

// Whether a character can be shown: it takes columns, and is no control character.
#[tactic(auto, unfolding(crate::specs::Shown::columns))]
fn can_be_shown(c: char) -> bool
    ensures { result ≡ (nat_lt 0 (columns c) && not (is_control c)) }
{
    match c.width() {
        Some(columns) => columns > 0 && !c.is_control(),
        None => false,
    }
}

/// A character as it is shown: a tab and what takes columns as itself, all else as `?`.
#[tactic(auto, unfolding(crate::specs::Shown::shown))]
pub(crate) fn shown_character(c: char) -> char
    ensures shown { result ≡ shown c }
    ensures harmless { is_command result ≡ false }
{
    if c == '\t' || c == ' ' || can_be_shown(c) {
        c
    } else {
        '?'
    }
}

/// The columns that a character takes.
#[tactic(auto, unfolding(crate::specs::Shown::columns))]
pub(crate) fn columns(c: char) -> usize
    ensures value { result ≡ columns c }
    ensures few { result ≤ 3 }
{
    c.width().unwrap_or(0)
}
