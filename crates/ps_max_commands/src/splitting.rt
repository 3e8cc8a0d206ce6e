//! Clauses, and an answer behind them.
ghost use Rattle.std.specs.Prelude.{◌≡◌, codes};
ghost use Rattle.std.specs.Str.{bytes_eq};
ghost use Rattle.ps_max_commands.specs.Splits.{answer_of_input, begins_answer, clauses_of_input};

use ps_wcnf::{next_line, next_word};

// Whether a word is the first of an answer.
fn is_maxsat(word: &[u8]) -> bool
    ensures { result ≡ bytes_eq word.now (codes "maxsat") }
{
    word == b"maxsat".as_slice()
}

// Whether the first word of a line is that of an answer.
fn begins_answer(line: &[u8]) -> bool
    ensures { result ≡ begins_answer line.now }
{
    match next_word(line) {
        Some((word, _)) => is_maxsat(word),
        None => false,
    }
}

// The bytes from the first line on that begins an answer, and none where none does.
fn answer_in(bytes: &[u8]) -> &[u8]
    ensures { result.now ≡ answer_of_input bytes.now }
{
    let mut rest = Some(bytes);
    while let Some(text) = rest {
        let (line, after) = next_line(text);
        if begins_answer(line) {
            return text;
        }
        rest = after;
    }
    &bytes[bytes.len()..]
}

/// The bytes before the first line whose first word is `maxsat`, and from there on; all and none
/// where there is none.
pub(crate) fn split_answer(bytes: &[u8]) -> (&[u8], &[u8])
    ensures clauses { result.0.now ≡ clauses_of_input bytes.now }
    ensures answer { result.1.now ≡ answer_of_input bytes.now }
{
    let answer = answer_in(bytes);
    (&bytes[..bytes.len() - answer.len()], answer)
}
