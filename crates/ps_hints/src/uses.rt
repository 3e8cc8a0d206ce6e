//! Where names are used.
ghost use Rattle.std.specs.Prelude.{◌≡◌, ◌≤◌};

use crate::words::is_word_byte;

/// How often a name is used in a text, outside of comments, and where last.
#[derive(Clone, Copy)]
pub(crate) struct Uses {
    /// How often.
    pub(crate) count: usize,
    /// The line of the last use, from 1 on; 1 where there is none.
    pub(crate) line: u32,
}

// How often a name stands in a line, before its comment.
fn count_in_line(line: &[u8], name: &[u8]) -> usize {
    let code = line.split(|byte| *byte == b'#').next().unwrap_or(line);
    code.split(|byte| !is_word_byte(*byte))
        .filter(|word| *word == name)
        .count()
}

impl Uses {
    /// The uses of a name.
    pub(crate) fn of(bytes: &[u8], name: &[u8]) -> Uses
        ensures line { 1 ≤ result.line }
        ensures unused { result.count ≡ 0 → result.line ≡ 1 }
    {
        let mut uses = Uses { count: 0, line: 1 };
        let mut line: u32 = 0;
        for text in bytes.split(|byte| *byte == b'\n') {
            line = line.saturating_add(1);
            let count = count_in_line(text, name);
            if count > 0 {
                uses.count = uses.count.saturating_add(count);
                uses.line = line;
            }
        }
        uses
    }
}
