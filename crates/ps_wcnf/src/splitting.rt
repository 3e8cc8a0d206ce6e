//! Lines and words.
ghost use Rattle.std.specs.Prelude.{◌≡◌, ◌<◌, ◌+◌, [], ◌∷◌, IfSome, IfNone, option_copied, length};
ghost use Rattle.std.specs.List.{slice_split};
ghost use Rattle.ps_wcnf.specs.Splitting.{is_blank, words_of, ends_with_return, without_return};
ghost use Rattle.ps_wcnf.specs.Splitting.{lines_of, lines_after, IsCutLine, IsFirstPart, IsFirstWord};
ghost use Rattle.ps_log.specs.Numbers.{left_of};

use ps_log::split_once;

fn is_blank(b: u8) -> bool
    ensures { result ≡ is_blank b }
{
    b == b' ' || b == b'\t'
}

// The bytes before the first blank, and those after it.
fn split_part(text: &[u8]) -> Option<(&[u8], &[u8])>
    ensures found { IfSome result (λ r. IsFirstPart text.now r.0.now r.1.now) }
    ensures none { IfNone result (slice_split is_blank text.now ≡ text.now ∷ []) }
{
    for i in 0..text.len() {
        if is_blank(text[i]) {
            return Some((&text[..i], &text[i + 1..]));
        }
    }
    None
}

/// The first word, and what follows it.
pub fn next_word(text: &[u8]) -> Option<(&[u8], &[u8])>
    ensures found { IfSome result (λ r. IsFirstWord text.now r.0.now r.1.now) }
    ensures none { IfNone result (words_of text.now ≡ []) }
{
    let mut rest = text;
    while let Some((part, after)) = split_part(rest) {
        if 0 < part.len() {
            return Some((part, after));
        }
        rest = after;
    }
    if 0 < rest.len() {
        return Some((rest, &rest[rest.len()..]));
    }
    None
}

fn ends_with_return(line: &[u8]) -> bool
    ensures { result ≡ ends_with_return line.now }
{
    !line.is_empty() && line[line.len() - 1] == b'\r'
}

fn without_return(line: &[u8]) -> &[u8]
    ensures { result.now ≡ without_return line.now }
{
    if ends_with_return(line) {
        &line[..line.len() - 1]
    } else {
        line
    }
}

/// The first line, and what follows the line feed that ends it, if one does.
pub fn next_line(text: &[u8]) -> (&[u8], Option<&[u8]>)
    ensures cut { IsCutLine text.now result.0.now (option_copied result.1) }
    ensures lines { lines_of text.now ≡ result.0.now ∷ lines_after (option_copied result.1) }
    ensures shorter { left_of (option_copied result.1) < length text.now + 1 }
{
    match split_once(text, b'\n') {
        Some((line, after)) => (without_return(line), Some(after)),
        None => (text, None),
    }
}
