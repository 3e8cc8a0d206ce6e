//! A valid text, byte by byte: where its items begin.
ghost use Rattle.std.specs.Prelude.{◌≡◌, ◌≤◌, ◌+◌, true};

/// The items that are looked for.
#[derive(Clone, Copy)]
pub(crate) enum Looked {
    Sentences,
    Queries,
}

impl Looked {
    // Whether such an item begins with the byte: a sentence with a `P`, or a linear one with a number
    // or a `-`.
    fn begins_with(self, byte: u8) -> bool {
        match self {
            Looked::Sentences => byte == b'P' || byte == b'-' || byte.is_ascii_digit(),
            Looked::Queries => byte == b'q',
        }
    }
}

/// Where a valid text stands between two bytes.
#[derive(Drop)]
pub(crate) struct Scanner {
    looked: Looked,
    line: u32,
    is_in_comment: bool,
    is_between_items: bool,
}

impl Scanner {
    /// Before the first byte, where these items are looked for.
    pub(crate) fn new(looked: Looked) -> Scanner
        ensures { result.line ≡ 1 }
    {
        Scanner {
            looked,
            line: 1,
            is_in_comment: false,
            is_between_items: true,
        }
    }

    /// The line, from 1 on.
    pub(crate) fn line(&self) -> u32
        ensures { result ≡ self.now.line }
    {
        self.line
    }

    /// Whether an item that is looked for begins with the byte, the next one.
    pub(crate) fn pass(&mut self, byte: u8) -> bool
        ensures least { self.old.line ≤ self.new.line }
        ensures most { self.new.line ≤ self.old.line + 1 }
        ensures same { result ≡ true → self.new.line ≡ self.old.line }
    {
        if byte == b'\n' {
            self.line = self.line.saturating_add(1);
            self.is_in_comment = false;
            return false;
        }
        if self.is_in_comment || byte.is_ascii_whitespace() {
            return false;
        }
        if byte == b'#' {
            self.is_in_comment = true;
            return false;
        }
        let begins = self.is_between_items && self.looked.begins_with(byte);
        self.is_between_items = byte == b';';
        begins
    }
}
