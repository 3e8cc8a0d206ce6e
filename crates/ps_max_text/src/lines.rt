//! The lines of a text, one after another.
ghost use Rattle.std.specs.Prelude.{◌≤◌, ◌+◌, ◌^◌, length};

use crate::item::MaxItem;
use crate::line::read_line;
use crate::part::MaxPart;
use ps_answer::{LineKind, ReportError};
use ps_reader::LineError;
use std::alloc::Global;

/// The lines that are still to be taken, and how many were.
#[derive(Clone, Copy, Drop)]
pub(crate) struct Lines<'b> {
    alloc: Global,
    rest: &'b [u8],
    taken: u64,
    ghost counted: { taken + length rest.now ≤ 2 ^ 63 },
}

impl<'b> Lines<'b> {
    ghost use Rattle.std.specs.Prelude.{◌≡◌, ◌∷◌, [], IfOk, IfErr, OnErr};
    ghost use Rattle.ps_max_text.specs.Read.{Fits};
    ghost use Rattle.ps_max_text.specs.Taken.{Takes, IsStopped, IsMore, left_in};

    /// All lines of some bytes.
    pub(crate) fn of(alloc: Global, bytes: &'b [u8]) -> Lines<'b>
        ensures left { left_in result ≡ bytes.now }
        ensures none_taken { result.taken ≡ 0 }
    {
        Lines {
            alloc,
            rest: bytes,
            taken: 0,
        }
    }

    /// What hands out memory.
    pub(crate) fn alloc(&self) -> Global {
        self.alloc
    }

    /// Takes a line, where a part is due. After an error the lines are as they were.
    pub(crate) fn take(&mut self, part: MaxPart) -> Result<MaxItem, ReportError>
        ensures line { IfOk result (λ i. Takes self.old self.new (i ∷ [])) }
        ensures fits { IfOk result (λ i. Fits part i) }
        ensures stopped { IfErr result (λ e. IsStopped self.old (part ∷ []) e) }
        ensures unchanged { OnErr result (self.new ≡ self.old) }
    {
        match read_line(self.alloc, part, self.rest) {
            Ok((item, rest)) => {
                *self = Lines {
                    alloc: self.alloc,
                    rest,
                    taken: self.taken + 1,
                };
                Ok(item)
            }
            Err(LineError::Fault(kind)) => Err(ReportError::At {
                kind,
                line: self.taken + 1,
            }),
            Err(LineError::NoMemory) => Err(ReportError::NoMemory),
        }
    }

    /// That nothing is left.
    pub(crate) fn end(&self) -> Result<(), ReportError>
        ensures none { IfOk result (λ u. left_in self.now ≡ []) }
        ensures more { IfErr result (λ e. IsMore self.now e) }
    {
        if self.rest.is_empty() {
            Ok(())
        } else {
            Err(ReportError::At {
                kind: LineKind::MoreAfterEnd,
                line: self.taken + 1,
            })
        }
    }
}
