//! A writer of lines.
ghost use Rattle.std.specs.Prelude.{◌≡◌, ◌≤◌, ◌+◌, ◌<◌, [], length, false, true};
ghost use Rattle.std.specs.Prelude.{IsOk, IfOk, OnOk, OnErr};
ghost use Rattle.std.specs.Fmt.{signed_decimal};
ghost use Rattle.ps_io.specs.LineText.{IsWord, number_length, with_word};
ghost use Rattle.ps_io.specs.Lines.{text_of, is_commented, line_length, sink_of, name_of};
ghost use Rattle.ps_io.specs.Lines.{CountsSinkFault, TookLine, TookLinePrefix};

use crate::limits::{LONGEST_LINE, LONGEST_NUMBER};
use crate::line::Line;
use crate::{NoMemory, Sink, WriteFault};
use std::alloc::Global;

/// Writes lines of words to a sink. A line is gathered in one buffer, and written where it ends.
#[derive(Drop)]
pub struct Lines<'s, O: Sink> {
    sink: &'s mut O,
    line: Line,
}

impl<'s, O: Sink> Lines<'s, O> {
    /// A writer with an empty line. Nothing is written. The buffer lies in place, so it never
    /// wants memory.
    pub fn new(_alloc: Global, sink: &'s mut O) -> Result<Lines<'s, O>, NoMemory>
        ensures succeeds { IsOk result }
        ensures same_reference { IfOk result (λ lines. name_of lines ≡ sink.entry.ghost_name) }
        ensures nothing_written { IfOk result (λ lines. sink_of lines ≡ sink.old) }
        ensures empty { IfOk result (λ lines. text_of lines ≡ []) }
        ensures unmarked { IfOk result (λ lines. is_commented lines ≡ false) }
    {
        Ok(Lines {
            sink,
            line: Line::new(),
        })
    }

    /// From now on `# ` is written before each line.
    pub fn comment(&mut self)
        requires { text_of self.old ≡ [] }
        ensures same_reference { name_of self.new ≡ name_of self.old }
        ensures nothing_written { sink_of self.new ≡ sink_of self.old }
        ensures empty { text_of self.new ≡ [] }
        ensures marked { is_commented self.new ≡ true }
    {
        self.line.comment();
    }

    /// Adds a word to the line, after one space where the line isn't empty.
    pub fn word(&mut self, text: &[u8])
        requires one_word { IsWord text.now }
        requires fits { line_length self.old + length text.now < LONGEST_LINE }
        ensures same_reference { name_of self.new ≡ name_of self.old }
        ensures nothing_written { sink_of self.new ≡ sink_of self.old }
        ensures same_mark { is_commented self.new ≡ is_commented self.old }
        ensures line { text_of self.new ≡ with_word (text_of self.old) text.now }
        ensures short { line_length self.new ≤ line_length self.old + length text.now + 1 }
    {
        self.line.word(text);
    }

    /// Adds a number in decimal, after one space where the line isn't empty.
    pub fn number(&mut self, n: i128)
        requires fits { line_length self.old + number_length n < LONGEST_LINE }
        ensures same_reference { name_of self.new ≡ name_of self.old }
        ensures nothing_written { sink_of self.new ≡ sink_of self.old }
        ensures same_mark { is_commented self.new ≡ is_commented self.old }
        ensures line { text_of self.new ≡ with_word (text_of self.old) (signed_decimal n) }
        ensures short { line_length self.new ≤ line_length self.old + LONGEST_NUMBER + 1 }
    {
        self.line.number(n);
    }

    /// Writes the line and a line feed. The line is then empty, and after a fault a proper prefix
    /// was written.
    pub fn end_line(&mut self) -> Result<(), WriteFault>
        ensures same_reference { name_of self.new ≡ name_of self.old }
        ensures same_mark { is_commented self.new ≡ is_commented self.old }
        ensures empty { text_of self.new ≡ [] }
        ensures ok { OnOk result (TookLine O.written self.old self.new) }
        ensures prefix { OnErr result (TookLinePrefix O.written self.old self.new) }
        ensures faults { CountsSinkFault O.faults self.old self.new result }
    {
        self.line.end_line(self.sink)
    }
}
