//! A problem's text at the front of bytes that come piece by piece.
ghost use Rattle.std.specs.Prelude.{◌≡◌, ◌<◌, ◌≤◌, ◌+◌, ◌^◌, ℕ, List, [], length};
ghost use Rattle.std.specs.Prelude.{IfOk, OnErr, IsErr, Err};
ghost use Rattle.ps_read.specs.declared.read_error.ReadError.TheVariants as errors;
ghost use Rattle.ps_read.specs.Fronts.{FindsUpTo, ReadsFront, RefusesFront, TellsUnread};
ghost use Rattle.ps_read.specs.Stages.{HasPushed, HasPushedOn, IsPieceOfPart, IsOutOfMemory};

use crate::read_error::ReadError;
use crate::reader::Reader;
use crate::stage::Stage;
use ps_io::NoMemory;
use ps_problem::Problem;
use std::alloc::Global;
use std::marker::Model;

/// Reads a problem's text at the front of bytes that come piece by piece, and keeps none of them.
/// For want of memory it reads no more: each further call answers that memory ran out.
#[derive(Drop)]
pub struct Front {
    alloc: Global,
    stage: Stage,
    // How many of the bytes belong to the problem part.
    taken: u32,
}

impl Model for Front {
    ghost use Rattle.std.specs.Coded.{codes};
    ghost use Rattle.ps_problem.specs.Codes.{formula_code};
    ghost use Rattle.ps_read.specs.Stages.{FrontState, IsSound, StandsBehind};

    ghost Value = { FrontState };

    ghost coded = { Prim.hlevel (codes, formula_code) };

    ghost view = { λ f. record { stage = f.stage; taken = f.taken } };

    ghost invariant = { λ f. IsSound f.stage × StandsBehind f.stage f.taken };
}

impl Front {
    /// Before the first piece.
    pub fn new(alloc: Global) -> Front
        ensures none { HasPushed result [] }
        ensures taken { result.taken ≡ 0 }
    {
        Front {
            alloc,
            stage: Stage::Reading(Reader::new(alloc)),
            taken: 0,
        }
    }

    /// Takes one more piece, and answers how many of its bytes belong to the problem part: all, up
    /// to the first byte that shows where the text and the blanks and comments behind it end. From
    /// that byte on none does. Where no problem is read, all belong to it. After want of memory no
    /// more is read.
    pub fn push(&mut self, piece: &[u8]) -> Result<u64, NoMemory>
        requires room { self.old.taken + length piece.now + 1 < 2 ^ 32 }
        // The piece's bytes are pushed, and so many of them belong to the problem part.
        ensures pushed { IfOk result (λ _. HasPushedOn self.old piece.now self.new) }
        ensures part { IfOk result (IsPieceOfPart self.old piece.now) }
        ensures taken { IfOk result (λ n. self.new.taken ≡ self.old.taken + n) }
        ensures within { IfOk result (λ n. n ≤ length piece.now) }
        // Once memory ran out, it is answered each time.
        ensures err { OnErr result (IsOutOfMemory self.new) }
        ensures err_taken { OnErr result (self.new.taken ≡ self.old.taken) }
        ensures stays { IsOutOfMemory self.old → IsErr result }
    {
        let stage = std::mem::replace(&mut self.stage, Stage::OutOfMemory);
        let (stage, taken) = stage.advance(self.alloc, self.taken, piece)?;
        let count = taken - self.taken;
        self.stage = stage;
        self.taken = taken;
        Ok(u64::from(count))
    }

    /// At the end of the pieces: the problem that `read_problem` reads at the front of all their
    /// bytes, or the first refusal that it answers.
    pub fn done(self, alloc: Global) -> Result<Problem, ReadError>
        // What is read is spelled at the front of what was pushed, up to the problem part's end.
        ensures found { (bytes : List ℕ) → HasPushed self bytes
            → FindsUpTo bytes self.taken result }
        // What is spelled there is read, unless memory runs out.
        ensures only { (bytes : List ℕ) → HasPushed self bytes → ReadsFront bytes result }
        // What is told against the bytes is so.
        ensures told { (bytes : List ℕ) → HasPushed self bytes → TellsUnread bytes result }
        // What is to be told is told, unless memory runs out.
        ensures refused { (bytes : List ℕ) → HasPushed self bytes → RefusesFront bytes result }
        // Once memory ran out, that is answered.
        ensures stays { IsOutOfMemory self → result ≡ Err errors.NoMemory }
    {
        self.stage.finish(alloc)
    }
}
