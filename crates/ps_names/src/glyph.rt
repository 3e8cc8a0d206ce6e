//! Characters of names as they are shown.
ghost use Rattle.std.specs.Prelude.{◌≡◌, ◌≤◌, false};
ghost use Rattle.ps_names.specs.Names.{columns, is_turning, shown, turns_direction};

use unicode_width::UnicodeWidthChar;

// Whether a character turns the direction in which others are shown.
fn turns_direction(c: char) -> bool
    ensures { result ≡ turns_direction c }
{
    let code = u32::from(c);
    (0x202A <= code && code <= 0x202E) || (0x2066 <= code && code <= 0x2069)
}

/// A character as it is shown: a space, and what takes columns and turns nothing, as itself, all else
/// as `?`.
#[tactic(auto, unfolding(crate::specs::Names::shown, crate::specs::Names::columns))]
pub(crate) fn shown_character(c: char) -> char
    ensures shown { result ≡ shown c }
    ensures plain { is_turning result ≡ false }
{
    let columns = c.width().unwrap_or(0);
    if columns > 0 && !c.is_control() && !turns_direction(c) {
        c
    } else {
        '?'
    }
}

/// The columns that a character takes.
#[tactic(auto, unfolding(crate::specs::Names::columns))]
pub(crate) fn columns(c: char) -> usize
    ensures value { result ≡ columns c }
    ensures few { result ≤ 3 }
{
    c.width().unwrap_or(0)
}
