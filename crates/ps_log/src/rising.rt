//! Whether the variables of a goal's text rise, with numbers of any size.
ghost use Rattle.std.specs.Prelude.{◌≡◌, ◌≤◌, IfSome, IfNone, length, option_copied};
ghost use Rattle.ps_log.specs.Spellings.{words_of};
ghost use Rattle.ps_log.specs.Numbers.{left_of};
ghost use Rattle.ps_log.specs.GoalNumbers.{size_word, TellsLess, HasVariable, HasOneWord, TellsRising};

use crate::words::split_word;

/// Whether the variables rise in a text of a degree, a coefficient and a literal for each term, and
/// 0.
pub(crate) fn variables_rise(text: &[u8]) -> bool
    ensures { TellsRising (words_of text.now) result }
{
    let (_, mut rest) = split_word(text);
    let mut last: &[u8] = b"0";
    while let Some(bytes) = rest {
        match next_variable(bytes) {
            Some((variable, after)) => {
                if !is_less(last, variable) {
                    return false;
                }
                last = variable;
                rest = after;
            }
            None => return true,
        }
    }
    true
}

// The literal of the first term without its minus, and what follows it.
fn next_variable(bytes: &[u8]) -> Option<(&[u8], Option<&[u8]>)>
    ensures found { IfSome result (λ r. HasVariable bytes.now r.0.now (option_copied r.1)) }
    ensures shorter { IfSome result (λ r. left_of (option_copied r.1) ≤ length bytes.now) }
    ensures none { IfNone result (HasOneWord bytes.now) }
{
    match split_word(bytes) {
        (_, Some(rest)) => {
            let (word, after) = split_word(rest);
            Some((size_word(word), after))
        }
        (_, None) => None,
    }
}

fn size_word(word: &[u8]) -> &[u8]
    ensures { result.now ≡ size_word word.now }
{
    match word {
        [b'-', size @ ..] => size,
        _ => word,
    }
}

// Whether one number is less than another; both are digits without a leading zero.
fn is_less(a: &[u8], b: &[u8]) -> bool
    ensures { TellsLess a.now b.now result }
{
    if a.len() != b.len() {
        return a.len() < b.len();
    }
    for i in 0..a.len() {
        if a[i] != b[i] {
            return a[i] < b[i];
        }
    }
    false
}
