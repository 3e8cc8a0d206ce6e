//! What a problem comes to without one of the sentences that clash, for people.
ghost use Rattle.std.specs.Prelude.{◌≡◌};
ghost use Rattle.ps_spoken.specs.Numbers.{Says};
ghost use Rattle.ps_spoken.specs.Clashes.{all_met_text, are_met, is_alone, is_met, left_text};
ghost use Rattle.ps_spoken.specs.Clashes.{others_met_text, rest_text, rest_texts, rest_words};
ghost use Rattle.ps_spoken.specs.Clashes.{without_text};

use crate::cause::write_cause;
use crate::clash::Clashing;
use crate::numbers::{append, number};
use ps_answer::Verdict;
use ps_io::NoMemory;

// Whether all the others can be met together without a sentence.
fn is_met(sentence: &Clashing) -> bool
    ensures { result ≡ is_met sentence.now }
{
    matches!(sentence.rest, Verdict::Consistent(_))
}

// Whether all the others can be met together without any one of these.
fn are_met(clashing: &[Clashing]) -> bool
    ensures { result ≡ are_met clashing.now }
{
    clashing.iter().all(|sentence| is_met(sentence))
}

/// Whether this is one sentence, which no distribution meets.
pub(crate) fn is_alone(clashing: &[Clashing]) -> bool
    ensures { result ≡ is_alone clashing.now }
{
    clashing.len() == 1
}

// Writes what the others come to.
fn write_rest_words(out: &mut Vec<u8>, rest: &Verdict) -> Result<(), NoMemory>
    ensures { Says result out.old.items out.new.items (rest_words rest.now) }
{
    match rest {
        Verdict::Consistent(_) => append(out, b"all the others can be met together\n"),
        Verdict::Inconsistent(_) => append(out, b"another clash stands\n"),
        Verdict::Open(cause) => {
            append(out, b"it isn't known whether another clash stands: ")?;
            write_cause(out, cause)?;
            append(out, b"\n")
        }
    }
}

// Writes which sentence is left out.
#[tactic(auto, unfolding(crate::specs::Clashes::without_text))]
fn write_without(out: &mut Vec<u8>, sentence: u32) -> Result<(), NoMemory>
    ensures { Says result out.old.items out.new.items (without_text sentence) }
{
    append(out, b"  without sentence ")?;
    number(out, i128::from(sentence))?;
    append(out, b" ")
}

// Writes what a problem comes to without a sentence.
fn write_rest(out: &mut Vec<u8>, sentence: &Clashing) -> Result<(), NoMemory>
    ensures { Says result out.old.items out.new.items (rest_text sentence.now) }
{
    write_without(out, sentence.number)?;
    write_rest_words(out, &sentence.rest)
}

// Writes what a problem comes to without each of these.
fn write_rests(out: &mut Vec<u8>, clashing: &[Clashing]) -> Result<(), NoMemory>
    ensures { Says result out.old.items out.new.items (rest_texts clashing.now) }
{
    for sentence in clashing {
        write_rest(out, sentence)?;
    }
    Ok(())
}

// Writes that all the others can be met together without any one of these.
fn write_all_met(out: &mut Vec<u8>, is_alone: bool) -> Result<(), NoMemory>
    ensures { Says result out.old.items out.new.items (all_met_text is_alone) }
{
    if is_alone {
        return append(
            out,
            b"leave it out, and all the others can be met together\n",
        );
    }
    append(
        out,
        b"leave any one of them out, and all the others can be met together\n",
    )
}

// Writes that these alone can be met without any one of them; nothing of one alone.
fn write_others_met(out: &mut Vec<u8>, is_alone: bool) -> Result<(), NoMemory>
    ensures { Says result out.old.items out.new.items (others_met_text is_alone) }
{
    if is_alone {
        return append(out, b"");
    }
    append(
        out,
        b"leave any one of them out, and the others of these no longer clash\n",
    )
}

/// Writes what is left where one of these is left out.
pub fn write_left(out: &mut Vec<u8>, clashing: &[Clashing]) -> Result<(), NoMemory>
    ensures { Says result out.old.items out.new.items (left_text clashing.now) }
{
    let is_alone = is_alone(clashing);
    if are_met(clashing) {
        return write_all_met(out, is_alone);
    }
    write_others_met(out, is_alone)?;
    write_rests(out, clashing)
}
