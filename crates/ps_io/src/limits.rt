//! Sizes of what is read and written at once.
ghost use Rattle.std.specs.Prelude.{◌≡◌};
ghost use Rattle.ps_io.specs.declared.limits.TheConstants.{LONGEST_READ, LONGEST_LINE};
ghost use Rattle.ps_io.specs.declared.limits.TheConstants.{LONGEST_NUMBER};
ghost use Rattle.ps_io.specs.declared.buffer.TheConstants.{CAPACITY};

/// The most bytes that one read of all bytes asks for.
pub const LONGEST_READ: usize = 65_536;

/// The most bytes of a line's text.
pub const LONGEST_LINE: usize = 65_536;

/// The most bytes of a signed number of 128 bits in decimal: a minus and 39 digits.
pub const LONGEST_NUMBER: usize = 40;

/// The sizes by their numbers.
pub fn sizes_have_these_numbers()
    ensures read { LONGEST_READ ≡ 65536 }
    ensures line { LONGEST_LINE ≡ 65536 }
    ensures number { LONGEST_NUMBER ≡ 40 }
    ensures buffer { CAPACITY ≡ 65539 }
{}
