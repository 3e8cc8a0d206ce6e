//! Problems that stand at the front of bytes.
ghost use Rattle.std.specs.Prelude.{◌≡◌, ◌<◌, ◌≤◌, ◌+◌, ◌^◌, IfOk, IfErr, length, option_map};
ghost use Rattle.ps_lex.specs.Lexing.{new_lexer};
ghost use Rattle.ps_problem.specs.Builds.{item_excess_of};
ghost use Rattle.ps_read.specs.Kinds.{count_kind};
ghost use Rattle.ps_read.specs.Readings.{SpellsProblem, SpellsWhole, IsUnread, IsUnreadWhole};
ghost use Rattle.ps_read.specs.Reads.{Tells, ReadsEach, RefusesEach};
ghost use Rattle.ps_read.specs.Reads.{ReadsEachWhole, RefusesEachWhole};
ghost use Rattle.ps_read.specs.Answers.{answer as answer_of, nothing_parsed, parsed_by, Answers};
ghost use Rattle.ps_read.specs.Answers.{AreWhole, IsBuiltOf, IsRight};

use crate::parser::Parser;
use crate::read_error::ReadError;
use crate::reader::Reader;
use ps_lex::Position;
use ps_problem::{BuildError, Problem, build};
use ps_text::ReadKind;
use std::alloc::Global;

// What is parsed of the text at the front, and the position behind the text and its blanks.
fn parse(alloc: Global, bytes: &[u8]) -> Result<(Parser, Position), ReadError>
    requires room { length bytes.now + 1 < 2 ^ 32 }
    ensures { Answers (answer_of new_lexer nothing_parsed bytes.now) result }
{
    let mut reader = Reader::new(alloc);
    let mut left = bytes;
    while let [byte, more @ ..] = left {
        if let Some(place) = reader.feed(*byte)? {
            return Ok((reader.into_parser(), place));
        }
        left = reader.pass(more);
    }
    reader.finish()
}

// The kind of a count's refusal and its item, none where memory ran out.
fn excess(error: BuildError) -> Option<(ReadKind, u32)>
    ensures { result ≡ option_map (λ r. (count_kind r.excess, r.item)) (item_excess_of error) }
{
    match error {
        BuildError::TooManyAtoms { item } => Some((ReadKind::TooManyAtoms, item)),
        BuildError::TooManyNodes { item } => Some((ReadKind::TooManyNodes, item)),
        BuildError::TooManyBounds { item } => Some((ReadKind::TooManyBounds, item)),
        BuildError::TooManyQueries { item } => Some((ReadKind::TooManyQueries, item)),
        BuildError::LinearTooLarge { item } => Some((ReadKind::LinearTooLarge, item)),
        BuildError::NoMemory => None,
    }
}

/// The problem of what was parsed. A count is refused at the first token of its item.
pub fn problem_of(alloc: Global, parser: &Parser) -> Result<Problem, ReadError>
    requires { AreWhole (parsed_by parser.now) }
    ensures { IsBuiltOf (parsed_by parser.now) result }
{
    match build(alloc, parser.draft()) {
        Ok(problem) => Ok(problem),
        Err(error) => match excess(error) {
            Some((kind, item)) => {
                let place = parser.places()[item as usize - 1];
                Err(ReadError::at(kind, place))
            }
            None => Err(ReadError::NoMemory),
        },
    }
}

// The problem at the front, and the position behind its text and blanks.
fn read(alloc: Global, bytes: &[u8]) -> Result<(Problem, Position), ReadError>
    requires room { length bytes.now + 1 < 2 ^ 32 }
    ensures { IsRight bytes.now result }
{
    let (parser, place) = parse(alloc, bytes)?;
    let problem = problem_of(alloc, &parser)?;
    Ok((problem, place))
}

/// The problem that is spelled at the front of some bytes, and the place of the first byte behind
/// its text and the blanks and comments that follow the text. Else the first refusal is answered:
/// one of the form comes at the token, byte or end that is refused, before any of a count, which
/// comes at the first token of the first item that passes a limit.
pub fn read_problem(alloc: Global, bytes: &[u8]) -> Result<(Problem, u64), ReadError>
    requires room { length bytes.now + 1 < 2 ^ 32 }
    // What is read is spelled at the front.
    ensures found { IfOk result (λ x. SpellsProblem bytes.now x.0 x.1) }
    ensures place { IfOk result (λ x. x.1 ≤ length bytes.now) }
    // What is spelled at the front is read, unless memory runs out.
    ensures only { ReadsEach bytes.now result }
    // What is told against the bytes is so.
    ensures told { IfErr result (Tells (IsUnread bytes.now)) }
    // What is to be told is told, unless memory runs out.
    ensures refused { RefusesEach bytes.now result }
{
    let (problem, place) = read(alloc, bytes)?;
    Ok((problem, u64::from(place.offset)))
}

/// The problem that all the bytes spell. Else the first refusal is answered, as `read_problem`
/// does, and last that more follows the text and its blanks, where it begins.
pub fn read_whole(alloc: Global, bytes: &[u8]) -> Result<Problem, ReadError>
    requires room { length bytes.now + 1 < 2 ^ 32 }
    // What is read is spelled by all the bytes.
    ensures found { IfOk result (SpellsWhole bytes.now) }
    // What all the bytes spell is read, unless memory runs out.
    ensures only { ReadsEachWhole bytes.now result }
    // What is told against the bytes is so.
    ensures told { IfErr result (Tells (IsUnreadWhole bytes.now)) }
    // What is to be told is told, unless memory runs out.
    ensures refused { RefusesEachWhole bytes.now result }
{
    let (problem, place) = read(alloc, bytes)?;
    if (place.offset as usize) < bytes.len() {
        return Err(ReadError::at(ReadKind::MoreAfterEnd, place));
    }
    Ok(problem)
}
