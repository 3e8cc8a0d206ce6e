//! What a line says.
ghost use Rattle.std.specs.Prelude.{◌≡◌, ◌≤◌, ◌∷◌, [], IfOk};
ghost use Rattle.std.specs.Str.{bytes_eq};
ghost use Rattle.ps_wcnf.specs.Counted.{Takes, TellsHard, TellsSoft, AreEnded, IsLine};
ghost use Rattle.ps_wcnf.specs.Spelling.{is_comment};
ghost use Rattle.ps_wcnf.specs.Splitting.{words_of};

use crate::spelling::{Spelled, count, literal};
use crate::splitting::next_word;
use ps_io::NoMemory;
use ps_pb::Lits;
use std::alloc::Global;

/// Literals up to a closing 0.
#[derive(Drop)]
pub(crate) enum Ended {
    /// A word is no literal, or no 0 closes them.
    Bad,
    /// One is of a variable past the last.
    Large,
    /// They are these.
    Literals(Lits),
}

/// What a line says.
#[derive(Drop)]
pub(crate) enum Told {
    /// It has none of the forms.
    Bad,
    /// It has one of the forms, with a number past its limit.
    Large,
    /// Nothing.
    Nothing,
    /// A hard clause.
    Hard(Lits),
    /// A soft clause.
    Soft(i128, Lits),
}

fn is_zero(word: &[u8]) -> bool
    ensures { result ≡ bytes_eq word.now (48 ∷ []) }
{
    word == b"0".as_slice()
}

fn is_hard(word: &[u8]) -> bool
    ensures { result ≡ bytes_eq word.now (104 ∷ []) }
{
    word == b"h".as_slice()
}

fn is_comment(word: &[u8]) -> bool
    ensures { result ≡ is_comment word.now }
{
    match word {
        [first, ..] => *first == b'c',
        _ => false,
    }
}

// Adds the literal that a word spells, and answers whether one has been too large by now.
fn take_word(lits: &mut Lits, large: bool, word: &[u8]) -> Result<Option<bool>, NoMemory>
    ensures { IfOk result (Takes word.now lits.old lits.new large) }
{
    match literal(word) {
        Spelled::Nothing => Ok(None),
        Spelled::Large => Ok(Some(true)),
        Spelled::Literal(lit) => {
            lits.push(lit)?;
            Ok(Some(large))
        }
    }
}

// The literals that the words of a text spell up to a closing 0.
fn literals_in(alloc: Global, text: &[u8]) -> Result<Ended, NoMemory>
    ensures { IfOk result (AreEnded (words_of text.now)) }
{
    let mut lits = Lits::new(alloc);
    let mut large = false;
    let mut rest = text;
    while let Some((word, after)) = next_word(rest) {
        if is_zero(word) {
            if next_word(after).is_some() {
                return Ok(Ended::Bad);
            }
            if large {
                return Ok(Ended::Large);
            }
            return Ok(Ended::Literals(lits));
        }
        match take_word(&mut lits, large, word)? {
            Some(now) => large = now,
            None => return Ok(Ended::Bad),
        }
        rest = after;
    }
    Ok(Ended::Bad)
}

// A hard clause of the literals.
fn hard_of(literals: Ended) -> Told
    ensures { TellsHard literals result }
{
    match literals {
        Ended::Bad => Told::Bad,
        Ended::Large => Told::Large,
        Ended::Literals(lits) => Told::Hard(lits),
    }
}

// A soft clause of the literals.
fn soft_of(weight: u128, literals: Ended) -> Told
    requires { 1 ≤ weight }
    ensures { TellsSoft weight literals result }
{
    match literals {
        Ended::Bad => Told::Bad,
        Ended::Large => Told::Large,
        Ended::Literals(lits) => {
            if weight <= 1 << 62 {
                Told::Soft(weight as i128, lits)
            } else {
                Told::Large
            }
        }
    }
}

/// What a line says.
pub(crate) fn read_line(alloc: Global, line: &[u8]) -> Result<Told, NoMemory>
    ensures { IfOk result (IsLine line.now) }
{
    let Some((word, after)) = next_word(line) else {
        return Ok(Told::Nothing);
    };
    if is_comment(word) {
        return Ok(Told::Nothing);
    }
    if is_hard(word) {
        return Ok(hard_of(literals_in(alloc, after)?));
    }
    match count(word) {
        Some(weight) => Ok(soft_of(weight, literals_in(alloc, after)?)),
        None => Ok(Told::Bad),
    }
}
