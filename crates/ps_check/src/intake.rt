//! How far an input has come.
ghost use Rattle.std.specs.Prelude.{◌≡◌, ◌≤◌, [], take, IfOk, OnOk};
ghost use Rattle.ps_check.specs.declared.intake.TheConstants.{MOST_SEARCHED};
ghost use Rattle.ps_check.specs.Intakes.{IsSound, IsBehind, Knows, HasTakenOn, IsFound};

use crate::checked::Checked;
use crate::report::Report;
use ps_io::NoMemory;
use ps_read::Front;
use std::alloc::Global;

/// The most bytes in which a problem is looked for: one fewer than a line or a column can number.
pub const MOST_SEARCHED: usize = (1 << 32) - 2;

/// How far an input has come.
#[derive(Drop)]
pub(crate) enum Intake {
    // The problem part may go on, behind so many bytes.
    Reading { front: Front, pushed: usize },
    // The problem part has ended, or so many bytes were searched that none more are.
    Behind { report: Report },
}

// The first bytes of some, at most so many.
fn at_most(bytes: &[u8], most: usize) -> &[u8]
    ensures front { result.now ≡ take most bytes.now }
{
    if bytes.len() <= most {
        bytes
    } else {
        &bytes[..most]
    }
}

// Behind the problem part that was pushed, and these bytes behind it.
fn behind(alloc: Global, front: &mut Front, rest: &[u8]) -> Result<Intake, NoMemory>
    ensures { IfOk result (IsBehind front.old rest.now) }
{
    let front = std::mem::replace(front, Front::new(alloc));
    let report = Report::begin(alloc, front, rest)?;
    Ok(Intake::Behind { report })
}

impl Intake {
    /// Before the first piece.
    pub(crate) fn new(alloc: Global) -> Intake
        ensures sound { IsSound result }
        ensures none { Knows result [] }
    {
        Intake::Reading {
            front: Front::new(alloc),
            pushed: 0,
        }
    }

    /// Takes one more piece.
    pub(crate) fn take(&mut self, alloc: Global, piece: &[u8]) -> Result<(), NoMemory>
        requires sound { IsSound self.old }
        ensures sound { OnOk result (IsSound self.new) }
        ensures taken { OnOk result (HasTakenOn self.old piece.now self.new) }
    {
        match self {
            Intake::Reading { front, pushed } => {
                let searched = at_most(piece, MOST_SEARCHED - *pushed);
                let count = front.push(searched)? as usize;
                if count == piece.len() {
                    *pushed += count;
                    return Ok(());
                }
                *self = behind(alloc, front, &piece[count..])?;
                Ok(())
            }
            Intake::Behind { report } => report.take(piece),
        }
    }

    /// At the end of the pieces: what is found of their bytes.
    pub(crate) fn finish(self, alloc: Global) -> Result<Checked, NoMemory>
        requires sound { IsSound self }
        ensures found { IfOk result (IsFound self) }
    {
        match self {
            Intake::Reading { front, .. } => Report::begin(alloc, front, &[])?.finish(),
            Intake::Behind { report } => report.finish(),
        }
    }
}
