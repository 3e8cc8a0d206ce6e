//! Messages: lines of text that a terminal can be given.
ghost use Rattle.std.specs.Prelude.{◌≡◌, ◌++◌, ◌∷◌, [], OnOk};
ghost use Rattle.std.specs.Str.{chars};
ghost use Rattle.std.specs.String.{string_bytes};
ghost use Rattle.ps_hints.specs.Shown.{IsHarmless, AddsLines, EndsLine, glyph, shown_text};

use crate::glyph::shown_character;
use ps_io::NoMemory;
use std::alloc::Global;
use std::marker::Model;

/// A message. It has no control character but tabs and the line feeds at the ends of its lines.
#[derive(Drop)]
pub(crate) struct Message {
    text: String,
}

impl Model for Message {
    ghost use Rattle.std.specs.Prelude.{ℕ, List};
    ghost use Rattle.std.specs.String.{string_bytes};
    ghost use Rattle.ps_hints.specs.Shown.{IsHarmless};

    ghost Value = { List ℕ };

    ghost view = { λ m. string_bytes m.text };

    ghost invariant = { λ m. IsHarmless (string_bytes m.text) };
}

// The last digit of a number, to the base 16.
fn hex_digit(number: u32) -> char {
    match char::from_digit(number % 16, 16) {
        Some(digit) => digit.to_ascii_uppercase(),
        None => '0',
    }
}

impl Message {
    /// An empty message.
    #[tactic(auto, using(crate::proofs::Harmless::nothing))]
    pub(crate) fn new(alloc: Global) -> Message
        ensures { result ≡ [] }
    {
        Message {
            text: String::new(alloc),
        }
    }

    /// Adds a character as it is shown.
    #[tactic(auto, using(crate::proofs::Harmless::pushed), unfolding(crate::specs::Shown::glyph))]
    pub(crate) fn push(&mut self, c: char) -> Result<(), NoMemory>
        ensures { OnOk result (self.new ≡ self.old ++ glyph c) }
    {
        self.text.push(shown_character(c))?;
        Ok(())
    }

    /// Adds a text as it is shown.
    pub(crate) fn push_text(&mut self, text: &str) -> Result<(), NoMemory>
        ensures { OnOk result (self.new ≡ self.old ++ shown_text (chars text.now)) }
    {
        for c in text.chars() {
            self.push(c)?;
        }
        Ok(())
    }

    /// Adds characters as they are shown.
    pub(crate) fn push_chars(&mut self, chars: &[char]) -> Result<(), NoMemory>
        ensures { OnOk result (self.new ≡ self.old ++ shown_text chars.now) }
    {
        for c in chars {
            self.push(*c)?;
        }
        Ok(())
    }

    /// Adds bytes as they are shown, with one `?` for each run of bytes that is no text.
    pub(crate) fn push_bytes(&mut self, bytes: &[u8]) -> Result<(), NoMemory> {
        for chunk in bytes.utf8_chunks() {
            self.push_text(chunk.valid())?;
            if !chunk.invalid().is_empty() {
                self.push('?')?;
            }
        }
        Ok(())
    }

    /// Adds a number in decimal.
    pub(crate) fn push_number(&mut self, number: u32) -> Result<(), NoMemory> {
        let mut digits = itoa::Buffer::new();
        self.push_text(digits.format(number))
    }

    /// Adds the number of a character, as `U+2212`.
    pub(crate) fn push_code(&mut self, c: char) -> Result<(), NoMemory> {
        let code = u32::from(c);
        let fronts = [
            code >> 20,
            code >> 16,
            code >> 12,
            code >> 8,
            code >> 4,
            code,
        ];
        self.push_text("U+")?;
        for (place, front) in fronts.iter().enumerate() {
            if place >= 2 || *front > 0 {
                self.push(hex_digit(*front))?;
            }
        }
        Ok(())
    }

    /// Ends the line.
    #[tactic(auto, using(crate::proofs::Harmless::ended, crate::proofs::Lines::ends))]
    pub(crate) fn end_line(&mut self) -> Result<(), NoMemory>
        ensures text { OnOk result (self.new ≡ self.old ++ 10 ∷ []) }
        ensures ends { OnOk result (EndsLine self.new) }
    {
        self.text.push('\n')?;
        Ok(())
    }

    /// Ends the line, and writes it behind what was written.
    #[tactic(auto, using(crate::proofs::Lines::line, crate::proofs::Lines::none_as))]
    pub(crate) fn write_line(mut self, out: &mut Vec<u8>) -> Result<(), NoMemory>
        ensures { AddsLines out.old.items out.new.items }
    {
        self.end_line()?;
        out.extend_from_slice(self.into_text().as_bytes())?;
        Ok(())
    }

    /// The text.
    pub(crate) fn into_text(self) -> String
        ensures text { string_bytes result ≡ self }
        ensures harmless { IsHarmless (string_bytes result) }
    {
        self.text
    }
}
