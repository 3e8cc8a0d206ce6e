//! Names by number.
ghost use Rattle.std.specs.Prelude.{◌≡◌, ◌<◌, [], length, slice_get, OnOk, OnErr, IfOk, Some};
ghost use Rattle.ps_problem.specs.declared.limits.TheConstants.{MOST_DRAFTED};
ghost use Rattle.ps_problem.specs.Numbering.{same_name, with_new};
ghost use Rattle.ps_problem.specs.Problems.{name_at};

use indexmap::IndexSet;
use ps_io::NoMemory;
use std::alloc::Global;
use std::marker::Model;

/// Different names in the order in which they first came.
#[derive(Drop)]
pub(crate) struct Names {
    alloc: Global,
    set: IndexSet<Vec<u8>>,
}

impl Model for Names {
    ghost use Rattle.std.specs.Prelude.{List, map};
    ghost use Rattle.ps_meaning.specs.Statements.{Name};

    ghost Value = { List Name };

    ghost view = { λ n. map (λ v. v.items) n.set.keys };
}

impl Names {
    pub(crate) fn new(alloc: Global) -> Names
        ensures { result ≡ [] }
    {
        Names {
            alloc,
            set: IndexSet::new(alloc),
        }
    }

    pub(crate) fn len(&self) -> usize
        ensures { result ≡ length self.now }
    {
        self.set.len()
    }

    /// The name of a number that was given out.
    pub(crate) fn text(&self, number: u32) -> &[u8]
        requires { number < length self.now }
        ensures { result.now ≡ name_at self.now number }
    {
        self.set[number as usize].as_slice()
    }

    /// The number of a name, which is added at the end where it isn't there.
    pub(crate) fn number(&mut self, text: &[u8]) -> Result<u32, NoMemory>
        requires { length self.old < MOST_DRAFTED }
        ensures number { IfOk result (λ n. slice_get self.new n ≡ Some text.now) }
        ensures names { OnOk result (self.new ≡ with_new same_name self.old text.now) }
        ensures err { OnErr result (self.new ≡ self.old) }
    {
        if let Some(i) = self.set.get_index_of(text) {
            return Ok(i as u32);
        }
        let name = text.to_vec(self.alloc)?;
        let (i, _) = self.set.insert_full(name)?;
        Ok(i as u32)
    }
}
