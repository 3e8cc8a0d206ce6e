//! A text that is being read.
ghost use Rattle.std.specs.Prelude.{◌≡◌, ◌≤◌, ◌<◌, ◌≤ℤ◌, pos, ◌^◌, if◌then◌else◌};
ghost use Rattle.ps_wcnf.specs.Counted.{Adds};
ghost use Rattle.ps_wcnf.specs.Limits.{IsText, last_in};
ghost use Rattle.ps_wcnf.specs.Readings.{no_text};
ghost use Rattle.ps_wcnf.specs.Spelling.{Hard, Soft};

use crate::shape::is_long;
use crate::text::WcnfText;
use ps_io::{List, NoMemory};
use ps_pb::{Lit, Lits, MOST_VARIABLES};
use std::alloc::Global;
use std::marker::Model;

const MOST_CLAUSES: usize = 1_000_000;

const MOST_WEIGHTS: i128 = 1 << 90;

/// A text within the limits, with the sum of its weights and the number of its soft clauses that
/// get a variable of their own.
#[derive(Drop)]
pub(crate) struct Draft {
    text: WcnfText,
    sum: i128,
    long: u32,
}

impl Model for Draft {
    ghost use Rattle.ps_wcnf.specs.declared.text.WcnfText.{WcnfText as Text};
    ghost use Rattle.ps_wcnf.specs.Counted.{IsKept};

    ghost Value = { Text };

    ghost view = { λ d. d.text };

    ghost invariant = { λ d. IsKept d.text d.sum d.long };
}

// The greatest variable of literals, 0 for none.
fn last_in(lits: &[Lit]) -> u32
    ensures value { result ≡ last_in lits.now }
    ensures within { result ≤ 1024 }
{
    let mut last = 0;
    for lit in lits {
        last = lit.variable().max(last);
    }
    last
}

fn one_if(long: bool) -> u32
    ensures value { result ≡ (if long then 1 else 0) }
    ensures within { result ≤ 1 }
{
    if long { 1 } else { 0 }
}

impl Draft {
    /// No clauses.
    pub(crate) fn new(alloc: Global) -> Draft
        ensures none { result ≡ no_text }
        ensures text { IsText result }
    {
        Draft {
            text: WcnfText {
                variables: 0,
                hard: List::new(alloc),
                soft: List::new(alloc),
            },
            sum: 0,
            long: 0,
        }
    }

    /// The text.
    pub(crate) fn into_text(self) -> WcnfText
        ensures value { result ≡ self }
        ensures text { IsText result }
    {
        self.text
    }

    /// Adds a hard clause, unless the text passes a limit with it.
    pub(crate) fn add_hard(&mut self, lits: Lits) -> Result<bool, NoMemory>
        ensures { Adds self.old self.new (Hard lits) result }
    {
        let variables = last_in(lits.as_slice()).max(self.text.variables);
        if MOST_CLAUSES <= self.text.hard.len() + self.text.soft.len() {
            return Ok(false);
        }
        if MOST_VARIABLES < variables + self.long {
            return Ok(false);
        }
        self.text.hard.push(lits)?;
        self.text.variables = variables;
        Ok(true)
    }

    /// Adds a soft clause, unless the text passes a limit with it.
    pub(crate) fn add_soft(
        &mut self,
        alloc: Global,
        weight: i128,
        lits: Lits,
    ) -> Result<bool, NoMemory>
        requires some { pos 1 ≤ℤ weight }
        requires most { weight ≤ℤ pos (2 ^ 62) }
        ensures { Adds self.old self.new (Soft weight lits) result }
    {
        let variables = last_in(lits.as_slice()).max(self.text.variables);
        let long = self.long + one_if(is_long(alloc, lits.as_slice())?);
        if MOST_CLAUSES <= self.text.hard.len() + self.text.soft.len() {
            return Ok(false);
        }
        if MOST_VARIABLES < variables + long {
            return Ok(false);
        }
        if MOST_WEIGHTS < self.sum + weight {
            return Ok(false);
        }
        self.text.soft.push((weight, lits))?;
        self.text.variables = variables;
        self.sum += weight;
        self.long = long;
        Ok(true)
    }
}
