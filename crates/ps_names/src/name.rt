//! Names as they are shown.
ghost use Rattle.std.specs.Prelude.{IfOk};
ghost use Rattle.std.specs.Str.{chars};
ghost use Rattle.std.specs.String.{string_bytes};
ghost use Rattle.ps_names.specs.Names.{IsPlain, Shows, TakesAtMost};
ghost use Rattle.ps_names.specs.declared.name.TheConstants.{MOST_COLUMNS, ROOM};

use crate::glyph::{columns, shown_character};
use ps_io::NoMemory;
use std::alloc::Global;

/// A name takes so many columns at most.
pub const MOST_COLUMNS: usize = 200;

/// What stands behind a name that is cut off.
const MARK: &str = "...";

/// The columns of a name before that.
const ROOM: usize = 197;

/// A name as it is shown: without control characters and those that turn the direction of others, each
/// of which is a `?`, and cut off where it takes more columns than have room.
#[tactic(auto, using(crate::proofs::Plain::nothing, crate::proofs::Plain::pushed, crate::proofs::Plain::marked, crate::proofs::Narrow::nothing, crate::proofs::Narrow::pushed, crate::proofs::Narrow::ended, crate::proofs::Narrow::marked, crate::proofs::Fronts::shown_more, crate::proofs::Fronts::wide_more))]
pub fn shown_name(alloc: Global, name: &str) -> Result<String, NoMemory>
    // No character that a terminal may take for a command stands in it.
    ensures plain { IfOk result (λ text. IsPlain (string_bytes text)) }
    ensures narrow { IfOk result (λ text. TakesAtMost MOST_COLUMNS (string_bytes text)) }

    // All of the name is shown, or as much as has room.
    ensures shown { IfOk result (λ text. Shows ROOM (chars name.now) (string_bytes text)) }
{
    let mut text = String::new(alloc);
    let mut used = 0;
    for c in name.chars() {
        let shown = shown_character(c);
        let columns = columns(shown);
        if used + columns > ROOM {
            text.push_str(MARK)?;
            return Ok(text);
        }
        text.push(shown)?;
        used += columns;
    }
    Ok(text)
}
