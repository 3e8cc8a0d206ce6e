//! The lines of sentences and queries.
ghost use Rattle.std.specs.Prelude.{◌<◌, IfSome, OnOk, length};
ghost use Rattle.ps_problem.specs.Problems.{IsSentence};
ghost use Rattle.ps_canonical.specs.Lines.{Adds, condition_text, probability_text};
ghost use Rattle.ps_canonical.specs.Lines.{sentence_line, statement_text, query_line};

use crate::formulas::formula;
use crate::terms::write_terms;
use crate::values::{append, relation, sum_relation};
use ps_io::NoMemory;
use ps_problem::{Problem, Query, Sentence};
use std::alloc::Global;

// Writes a condition, where there is one.
fn condition(
    alloc: Global,
    problem: &Problem,
    given: Option<u32>,
    out: &mut Vec<u8>,
) -> Result<(), NoMemory>
    requires { IfSome given (λ g. g < length problem.now.nodes) }
    ensures { OnOk result (Adds out.old.items out.new.items (condition_text problem.now given)) }
{
    match given {
        Some(node) => {
            append(out, b" given ")?;
            formula(alloc, problem, node, out)
        }
        None => Ok(()),
    }
}

/// Writes the probability of a formula, perhaps given a condition, behind what was written. Both
/// are numbers of nodes.
pub fn write_probability(
    alloc: Global,
    problem: &Problem,
    node: u32,
    given: Option<u32>,
    out: &mut Vec<u8>,
) -> Result<(), NoMemory>
    requires formula { node < length problem.now.nodes }
    requires given { IfSome given (λ g. g < length problem.now.nodes) }
    ensures { OnOk result
        (Adds out.old.items out.new.items (probability_text problem.now node given)) }
{
    append(out, b"P(")?;
    formula(alloc, problem, node, out)?;
    condition(alloc, problem, given, out)?;
    append(out, b")")
}

/// Writes a sentence behind what was written: its probability or its terms, and how they are bounded.
pub fn write_statement(
    alloc: Global,
    problem: &Problem,
    sentence: &Sentence,
    out: &mut Vec<u8>,
) -> Result<(), NoMemory>
    requires { IsSentence problem.now.nodes sentence.now }
    ensures { OnOk result
        (Adds out.old.items out.new.items (statement_text problem.now sentence.now)) }
{
    match sentence {
        Sentence::Plain { first, second } => {
            write_probability(alloc, problem, first.formula, first.given, out)?;
            relation(out, first, *second)
        }
        Sentence::Linear(linear) => {
            write_terms(alloc, problem, linear, out)?;
            sum_relation(out, linear)
        }
    }
}

// Writes the line of a sentence.
pub(crate) fn write_sentence(
    alloc: Global,
    problem: &Problem,
    sentence: &Sentence,
    out: &mut Vec<u8>,
) -> Result<(), NoMemory>
    requires { IsSentence problem.now.nodes sentence.now }
    ensures { OnOk result
        (Adds out.old.items out.new.items (sentence_line problem.now sentence.now)) }
{
    write_statement(alloc, problem, sentence, out)?;
    append(out, b";\n")
}

// Writes the line of a query.
pub(crate) fn write_query(
    alloc: Global,
    problem: &Problem,
    query: &Query,
    out: &mut Vec<u8>,
) -> Result<(), NoMemory>
    requires formula { query.now.formula < length problem.now.nodes }
    requires given { IfSome query.now.given (λ g. g < length problem.now.nodes) }
    ensures { OnOk result (Adds out.old.items out.new.items (query_line problem.now query.now)) }
{
    append(out, b"query ")?;
    write_probability(alloc, problem, query.formula, query.given, out)?;
    append(out, b";\n")
}
