//! What is known of the bytes so far.
ghost use Rattle.std.specs.Prelude.{◌≡◌, ◌<◌, ◌≤◌, ◌+◌, ◌^◌, length};
ghost use Rattle.std.specs.Prelude.{IfOk, IsErr, Err};
ghost use Rattle.ps_read.specs.Answers.{parsed_by, AreWhole};
ghost use Rattle.ps_read.specs.declared.read_error.ReadError.TheVariants as errors;
ghost use Rattle.ps_read.specs.declared.stage.Stage.TheVariants as stages;
ghost use Rattle.ps_read.specs.Stages.{IsReady, IsSound, StandsBehind};
ghost use Rattle.ps_read.specs.Stages.{behind_refusal, IsBehindText, IsKnownOn, IsReadOf};

use crate::parser::Parser;
use crate::piece::take;
use crate::read_error::ReadError;
use crate::reader::Reader;
use crate::reading::problem_of;
use ps_io::NoMemory;
use ps_problem::Problem;
use ps_text::ReadKind;
use std::alloc::Global;

/// What is known of the bytes so far.
#[derive(Drop)]
pub(crate) enum Stage {
    // The text, or the blanks behind it, may go on.
    Reading(Reader),
    // The problem, and that more follows it.
    Followed(Problem),
    // Why and where no problem is read, whatever follows.
    Refused {
        kind: ReadKind,
        line: u32,
        column: u32,
    },
    // Memory ran out.
    OutOfMemory,
}

// Behind a refusal, to which all of the bytes belong.
fn stage_refused(error: ReadError, all: u32) -> Result<(Stage, u32), NoMemory>
    ensures { result ≡ behind_refusal error all }
{
    match error {
        ReadError::At { kind, line, column } => { Ok((Stage::Refused { kind, line, column }, all)) }
        ReadError::NoMemory => Err(NoMemory),
    }
}

// Behind a text that ends before so many of the bytes: its problem, or a refusal.
fn stage_behind(
    alloc: Global,
    parser: &Parser,
    count: u32,
    all: u32,
) -> Result<(Stage, u32), NoMemory>
    requires { AreWhole (parsed_by parser.now) }
    ensures { IsBehindText (parsed_by parser.now) count all result }
{
    match problem_of(alloc, parser) {
        Ok(problem) => Ok((Stage::Followed(problem), count)),
        Err(error) => stage_refused(error, all),
    }
}

// What is known behind a piece more, and how many bytes belong to the problem part then.
fn read_on(
    alloc: Global,
    mut reader: Reader,
    taken: u32,
    piece: &[u8],
) -> Result<(Stage, u32), NoMemory>
    requires ready { IsReady reader }
    requires place { reader.lexer.here.offset ≡ taken }
    requires room { taken + length piece.now + 1 < 2 ^ 32 }
    ensures sound { IfOk result (λ x. IsSound x.0) }
    ensures place { IfOk result (λ x. StandsBehind x.0 x.1) }
    ensures grows { IfOk result (λ x. (taken ≤ x.1) × (x.1 ≤ taken + length piece.now)) }
    ensures known { IsKnownOn (stages.Reading reader) taken piece.now result }
{
    let all = taken + piece.len() as u32;
    match take(&mut reader, piece) {
        Ok(None) => Ok((Stage::Reading(reader), all)),
        Ok(Some(count)) => stage_behind(alloc, &reader.into_parser(), taken + count, all),
        Err(error) => stage_refused(error, all),
    }
}

// The problem that ends with the bytes.
fn finish(alloc: Global, reader: Reader) -> Result<Problem, ReadError>
    requires ready { IsReady reader }
    ensures { IsReadOf (stages.Reading reader) result }
{
    let (parser, _place) = reader.finish()?;
    problem_of(alloc, &parser)
}

impl Stage {
    /// What is known behind a piece more, and how many bytes belong to the problem part then, of
    /// which so many came before it.
    pub(crate) fn advance(
        self,
        alloc: Global,
        taken: u32,
        piece: &[u8],
    ) -> Result<(Stage, u32), NoMemory>
        requires sound { IsSound self }
        requires place { StandsBehind self taken }
        requires room { taken + length piece.now + 1 < 2 ^ 32 }
        ensures sound { IfOk result (λ x. IsSound x.0) }
        ensures place { IfOk result (λ x. StandsBehind x.0 x.1) }
        ensures grows { IfOk result (λ x. (taken ≤ x.1) × (x.1 ≤ taken + length piece.now)) }
        ensures known { IsKnownOn self taken piece.now result }
        ensures stays { self ≡ stages.OutOfMemory → IsErr result }
    {
        match self {
            Stage::Reading(reader) => read_on(alloc, reader, taken, piece),
            Stage::Followed(problem) => Ok((Stage::Followed(problem), taken)),
            Stage::Refused { kind, line, column } => {
                let all = taken + piece.len() as u32;
                Ok((Stage::Refused { kind, line, column }, all))
            }
            Stage::OutOfMemory => Err(NoMemory),
        }
    }

    /// The problem, if the bytes end here, or why and where none is read.
    pub(crate) fn finish(self, alloc: Global) -> Result<Problem, ReadError>
        requires sound { IsSound self }
        ensures read { IsReadOf self result }
        ensures stays { self ≡ stages.OutOfMemory → result ≡ Err errors.NoMemory }
    {
        match self {
            Stage::Reading(reader) => finish(alloc, reader),
            Stage::Followed(problem) => Ok(problem),
            Stage::Refused { kind, line, column } => Err(ReadError::At { kind, line, column }),
            Stage::OutOfMemory => Err(ReadError::NoMemory),
        }
    }
}
