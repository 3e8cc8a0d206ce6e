//! What stands around a place.
ghost use Rattle.std.specs.Prelude.{◌≡◌, ◌≤◌, ◌++◌, length, slice_get};
ghost use Rattle.ps_hints.specs.Found.{IsFront};

use crate::words::{is_any, word_at_end, word_at_front};

/// What stands around a place of a text.
#[derive(Clone, Copy)]
pub(crate) struct Spot<'t> {
    /// The bytes before the place.
    pub(crate) before: &'t [u8],
    /// The bytes at the place and behind.
    pub(crate) behind: &'t [u8],
}

impl<'t> Spot<'t> {
    /// The spot behind so many bytes, at the end where there are fewer.
    pub(crate) fn at(bytes: &'t [u8], offset: usize) -> Spot<'t>
        ensures whole { result.before.now ++ result.behind.now ≡ bytes.now }
        ensures offset { offset ≤ length bytes.now → length result.before.now ≡ offset }
    {
        match bytes.split_at_checked(offset) {
            Some((before, behind)) => Spot { before, behind },
            None => Spot {
                before: bytes,
                behind: &[],
            },
        }
    }

    /// Whether this stands here.
    pub(crate) fn begins(&self, sign: &str) -> bool {
        self.behind.starts_with(sign.as_bytes())
    }

    /// Whether one of these stands here.
    pub(crate) fn begins_any(&self, signs: &[&'static str]) -> bool {
        signs.iter().any(|sign| self.begins(sign))
    }

    /// Whether a `+` or a `-` stands here.
    pub(crate) fn begins_sign(&self) -> bool {
        self.begins("+") || self.begins("-") && !self.begins("->")
    }

    /// Whether a relation stands here.
    pub(crate) fn begins_relation(&self) -> bool {
        self.begins_any(&["=", "<=", ">="]) || is_any(self.word(), &["in"])
    }

    /// Whether this stands right before.
    pub(crate) fn follows(&self, sign: &str) -> bool {
        self.before.ends_with(sign.as_bytes())
    }

    /// The word that stands here.
    pub(crate) fn word(&self) -> &'t [u8]
        ensures { IsFront result.now self.now.behind.now }
    {
        word_at_front(self.behind)
    }

    /// The word before, with nothing but blanks between.
    pub(crate) fn word_before(&self) -> &'t [u8] {
        word_at_end(self.before.trim_ascii_end())
    }

    /// The character that stands here.
    pub(crate) fn character(&self) -> Option<char> {
        self.behind.utf8_chunks().next()?.valid().chars().next()
    }

    /// The byte that stands here.
    pub(crate) fn first(&self) -> Option<u8>
        ensures { result ≡ slice_get self.now.behind.now 0 }
    {
        self.behind.first().copied()
    }

    /// The byte behind the one that stands here.
    pub(crate) fn second(&self) -> Option<u8>
        ensures { result ≡ slice_get self.now.behind.now 1 }
    {
        self.behind.get(1).copied()
    }

    /// The byte right before.
    pub(crate) fn last(&self) -> Option<u8> {
        self.before.last().copied()
    }

    /// The byte before, with nothing but blanks between.
    pub(crate) fn byte_before(&self) -> Option<u8> {
        self.before.trim_ascii_end().last().copied()
    }

    /// What stands behind so many bytes, without the blanks at its front.
    pub(crate) fn rest_behind(&self, count: usize) -> &'t [u8] {
        self.behind.get(count..).unwrap_or(&[]).trim_ascii_start()
    }

    /// Whether it is the first on its line but for blanks.
    pub(crate) fn begins_line(&self) -> bool {
        self.line_before().trim_ascii().is_empty()
    }

    /// The bytes of the line before the place.
    pub(crate) fn line_before(&self) -> &'t [u8] {
        match self.before.iter().rposition(|byte| *byte == b'\n') {
            Some(last) => &self.before[last + 1..],
            None => self.before,
        }
    }

    /// The bytes of the line at the place and behind, without the line's end.
    pub(crate) fn line_behind(&self) -> &'t [u8] {
        let line = match self.behind.iter().position(|byte| *byte == b'\n') {
            Some(end) => &self.behind[..end],
            None => self.behind,
        };
        line.strip_suffix(b"\r").unwrap_or(line)
    }
}
