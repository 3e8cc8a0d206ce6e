//! The terms of linear sentences.
ghost use Rattle.std.specs.Prelude.{◌≡◌, ◌<◌, OnOk, length};
ghost use Rattle.ps_problem.specs.Problems.{IsLinear};
ghost use Rattle.ps_canonical.specs.Lines.{Adds};
ghost use Rattle.ps_canonical.specs.Terms.{sign_text, term_text_at, signed_term, left_text};

use crate::lines::write_probability;
use crate::values::{append, is_negative, size};
use ps_io::NoMemory;
use ps_problem::{Linear, Problem, Signed, lowest};
use std::alloc::Global;

// The sign before a term, which is the first of its sentence or not.
fn sign(is_first: bool, is_negative: bool) -> &'static [u8]
    ensures { result.now ≡ sign_text is_first is_negative }
{
    match (is_first, is_negative) {
        (true, true) => b"- ",
        (true, false) => b"",
        (false, true) => b" - ",
        (false, false) => b" + ",
    }
}

// Writes a term: the size of its coefficient, and its probability.
fn write_term(
    alloc: Global,
    problem: &Problem,
    node: u32,
    factor: Signed,
    out: &mut Vec<u8>,
) -> Result<(), NoMemory>
    requires { node < length problem.now.nodes }
    ensures { OnOk result
        (Adds out.old.items out.new.items (term_text_at problem.now node factor)) }
{
    size(out, factor)?;
    append(out, b" ")?;
    write_probability(alloc, problem, node, None, out)
}

// Writes a term, a node and its coefficient, behind its sign.
fn write_signed_term(
    alloc: Global,
    problem: &Problem,
    is_first: bool,
    term: (u32, Signed),
    out: &mut Vec<u8>,
) -> Result<(), NoMemory>
    requires { term.0 < length problem.now.nodes }
    ensures { OnOk result
        (Adds out.old.items out.new.items (signed_term problem.now is_first term)) }
{
    append(out, sign(is_first, is_negative(term.1.num)))?;
    write_term(alloc, problem, term.0, term.1, out)
}

// Writes the terms of a linear sentence.
pub(crate) fn write_terms(
    alloc: Global,
    problem: &Problem,
    linear: &Linear,
    out: &mut Vec<u8>,
) -> Result<(), NoMemory>
    requires { IsLinear problem.now.nodes linear.now }
    ensures { OnOk result
        (Adds out.old.items out.new.items (left_text problem.now linear.now)) }
{
    for (place, term) in linear.terms.as_slice().iter().enumerate() {
        let coefficient = lowest(linear.scale, term.1);
        write_signed_term(alloc, problem, place == 0, (term.0, coefficient), out)?;
    }
    Ok(())
}
