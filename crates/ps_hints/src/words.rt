//! Words.
ghost use Rattle.ps_hints.specs.Found.{IsFront};

/// The word for "not".
pub(crate) const NOT: &[&'static str] = &["not", "NOT", "Not"];

/// Whether a byte may stand in a word.
pub(crate) fn is_word_byte(byte: u8) -> bool {
    byte.is_ascii_alphanumeric() || byte == b'_'
}

/// The bytes at the front that may stand in a word.
#[tactic(auto, using(crate::proofs::Fronts::taken, crate::proofs::Fronts::all))]
pub(crate) fn word_at_front(bytes: &[u8]) -> &[u8]
    ensures { IsFront result.now bytes.now }
{
    match bytes.iter().position(|byte| !is_word_byte(*byte)) {
        Some(end) => &bytes[..end],
        None => bytes,
    }
}

/// The bytes at the end that may stand in a word.
pub(crate) fn word_at_end(bytes: &[u8]) -> &[u8] {
    match bytes.iter().rposition(|byte| !is_word_byte(*byte)) {
        Some(last) => &bytes[last + 1..],
        None => bytes,
    }
}

/// Whether a word is one of these.
pub(crate) fn is_any(word: &[u8], words: &[&'static str]) -> bool {
    words.iter().any(|one| one.as_bytes() == word)
}

/// Whether a word stands in some bytes.
pub(crate) fn has_word(bytes: &[u8], word: &str) -> bool {
    let mut is_inside = false;
    for (offset, byte) in bytes.iter().enumerate() {
        if !is_inside && word_at_front(bytes.get(offset..).unwrap_or(&[])) == word.as_bytes() {
            return true;
        }
        is_inside = is_word_byte(*byte);
    }
    false
}

/// Whether a word has a meaning of its own, so that it can't be a name.
pub(crate) fn is_reserved(word: &[u8]) -> bool {
    is_any(
        word,
        &["psat", "P", "given", "in", "query", "end", "true", "false"],
    )
}

/// Whether a word is one of the language in other letters, small ones or capitals.
pub(crate) fn is_reserved_in_other_letters(word: &[u8]) -> bool {
    !is_reserved(word)
        && ["psat", "given", "in", "query", "end", "true", "false"]
            .iter()
            .any(|one| one.as_bytes().eq_ignore_ascii_case(word))
}
