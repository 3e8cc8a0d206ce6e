//! The canonical text.
ghost use Rattle.std.specs.Prelude.{◌≡◌, IfOk, OnOk};
ghost use Rattle.ps_text.specs.Canonical.{canonical_text};
ghost use Rattle.ps_problem.specs.Written.{items_from};
ghost use Rattle.ps_canonical.specs.Lines.{Adds, sentences_text, queries_text, version_from};
ghost use Rattle.ps_canonical.specs.Lines.{first_line, text_in, upgraded_text};

use crate::lines::{write_query, write_sentence};
use crate::values::append;
use ps_io::NoMemory;
use ps_problem::{Problem, Sentence};
use ps_text::Version;
use std::alloc::Global;

// The version of a text of these sentences: 2 where one is linear, and else 1.
fn version(sentences: &[Sentence]) -> Version
    ensures { result ≡ version_from sentences.now }
{
    for sentence in sentences {
        match sentence {
            Sentence::Linear(_) => return Version::Two,
            Sentence::Plain { .. } => {}
        }
    }
    Version::One
}

// The first line of a text.
fn first_line(version: Version) -> &'static [u8]
    ensures { result.now ≡ first_line version }
{
    match version {
        Version::One => b"psat 1;\n",
        Version::Two => b"psat 2;\n",
    }
}

// Writes the lines of all sentences.
fn sentences(alloc: Global, problem: &Problem, out: &mut Vec<u8>) -> Result<(), NoMemory>
    ensures { OnOk result (Adds out.old.items out.new.items (sentences_text problem.now)) }
{
    for sentence in problem.sentences().as_slice() {
        write_sentence(alloc, problem, sentence, out)?;
    }
    Ok(())
}

// Writes the lines of all queries.
fn queries(alloc: Global, problem: &Problem, out: &mut Vec<u8>) -> Result<(), NoMemory>
    ensures { OnOk result (Adds out.old.items out.new.items (queries_text problem.now)) }
{
    for query in problem.queries().as_slice() {
        write_query(alloc, problem, query, out)?;
    }
    Ok(())
}

// The text of a problem behind the first line of a version.
fn text_in(alloc: Global, problem: &Problem, version: Version) -> Result<Vec<u8>, NoMemory>
    ensures { IfOk result (λ v. v.items ≡ text_in version (items_from problem.now)) }
{
    let mut out = Vec::new(alloc);
    append(&mut out, first_line(version))?;
    sentences(alloc, problem, &mut out)?;
    queries(alloc, problem, &mut out)?;
    append(&mut out, b"end;\n")?;
    Ok(out)
}

/// The canonical text of a problem: its sentences in order and then its queries in order, one line
/// each, with no parentheses but the needed ones and values in lowest terms. By the law
/// `canonical_text_is_reread` of `ps_problem` what stands there is the problem.
pub fn canonical_text(alloc: Global, problem: &Problem) -> Result<Vec<u8>, NoMemory>
    ensures { IfOk result (λ v. v.items ≡ canonical_text (items_from problem.now)) }
{
    text_in(alloc, problem, version(problem.sentences().as_slice()))
}

/// The canonical text of a problem with `psat 2;` as its first line, also where no sentence is
/// linear.
pub fn upgraded_text(alloc: Global, problem: &Problem) -> Result<Vec<u8>, NoMemory>
    ensures { IfOk result (λ v. v.items ≡ upgraded_text (items_from problem.now)) }
{
    text_in(alloc, problem, Version::Two)
}
