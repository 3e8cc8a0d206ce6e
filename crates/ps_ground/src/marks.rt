//! Ground formulas as marks in postfix order.
ghost use Rattle.std.specs.Prelude.{◌≡◌, ◌<◌, ◌≤◌, ◌++◌, [], ◌∷◌, ◌-◌, IfOk, OnOk, length, map, replicate, slice_index_or};
ghost use Rattle.ps_ground.specs.declared.limits.TheConstants.{MOST_MARKS};
ghost use Rattle.ps_problem.specs.Problems.{name_at};
ghost use Rattle.ps_first_order.specs.FirstOrder.{constant_of};
ghost use Rattle.ps_ground.specs.Grounding.{atom_name};
ghost use Rattle.ps_first_order.specs.Parts.{AreParts, IsArgument, term_of, terms_of};
ghost use Rattle.ps_ground.specs.GroundParts.{AreNumbers};
ghost use Rattle.ps_ground.specs.GroundParts.{assignment_in, marks_of, marks_in, ground_part};
ghost use Rattle.ps_ground.specs.GroundParts.{constant_in, name_in, IsFormulaOf};
ghost use Rattle.ps_first_order.specs.Parts.{operand, formulas_in, formula_over, Fits};
ghost use Rattle.ps_ground.specs.GroundParts.{IsGroundedPart, AreCounted};
ghost use Rattle.ps_ground.specs.Marks.{joining_mark, joining_marks};

use crate::limits::MOST_MARKS;
use crate::mark::{GroundFault, GroundMark};
use ps_first_order::{Argument, Connective, FirstOrderParts, Part, Quantifier, UNDERSCORE};
use ps_io::{List, NoMemory};
use std::alloc::Global;

// Adds the bytes of a name.
fn append(out: &mut List<u8>, name: &[u8]) -> Result<(), NoMemory>
    ensures { OnOk result (out.new ≡ out.old ++ name.now) }
{
    for byte in name {
        out.push(*byte)?;
    }
    Ok(())
}

// The name of the constant that a term stands for.
fn constant_name<'p>(parts: &'p FirstOrderParts, numbers: &[u32], term: Argument) -> &'p [u8]
    requires sound { AreParts parts.now }
    requires numbers { AreNumbers parts.now numbers.now }
    requires term { IsArgument parts.now term }
    ensures { result.now ≡ constant_in parts.now numbers.now (term_of parts.now term) }
{
    match term {
        Argument::Constant(c) => parts.constants.as_slice()[c as usize].as_slice(),
        Argument::Variable(x) => {
            parts.constants.as_slice()[numbers[x as usize] as usize].as_slice()
        }
    }
}

// The name of a predicate with the constants that its terms stand for.
fn atom(
    alloc: Global,
    parts: &FirstOrderParts,
    numbers: &[u32],
    predicate: u32,
    start: u32,
    end: u32,
) -> Result<List<u8>, NoMemory>
    requires sound { AreParts parts.now }
    requires numbers { AreNumbers parts.now numbers.now }
    requires predicate { predicate < length parts.now.predicates }
    requires order { start ≤ end }
    requires end { end ≤ length parts.now.arguments }
    ensures { IfOk result (λ name. name ≡ name_in parts.now numbers.now predicate start end) }
{
    let mut name = List::new(alloc);
    append(
        &mut name,
        parts.predicates.as_slice()[predicate as usize].as_slice(),
    )?;
    let terms = &parts.arguments.as_slice()[start as usize..end as usize];
    for term in terms {
        name.push(UNDERSCORE)?;
        append(&mut name, constant_name(parts, numbers, *term))?;
    }
    Ok(name)
}

// The connective of a quantifier's ground formula.
fn joining(quantifier: Quantifier) -> Connective
    ensures { result ≡ joining_mark quantifier }
{
    match quantifier {
        Quantifier::ForAll => Connective::And,
        Quantifier::Exists => Connective::Or,
    }
}

// Joins the formula of a constant with those of the constants before it, if there are any.
fn join(
    marks: &mut List<GroundMark>,
    quantifier: Quantifier,
    constant: usize,
) -> Result<(), NoMemory>
    ensures { OnOk result (marks.new ≡ marks.old ++ joining_marks quantifier constant) }
{
    if constant > 0 {
        marks.push(GroundMark::Joined(joining(quantifier)))?;
    }
    Ok(())
}

// The part of a number.
#[tactic(auto, using(crate::proofs::Marking::formula_at_place))]
fn part_at(parts: &FirstOrderParts, i: u32) -> Part
    requires sound { AreParts parts.now }
    requires there { i < length parts.now.parts }
    ensures formula { IsFormulaOf parts.now i result }
    ensures fits { Fits parts.now i result }
{
    parts.parts.as_slice()[i as usize]
}

// Adds the marks of the ground formula of a part. The numbers are those of the constants that
// variables stand for.
fn add_marks(
    alloc: Global,
    parts: &FirstOrderParts,
    i: u32,
    numbers: &mut Vec<u32>,
    marks: &mut List<GroundMark>,
) -> Result<(), NoMemory>
    requires sound { AreParts parts.now }
    requires there { i < length parts.now.parts }
    requires numbers { AreNumbers parts.now numbers.old.items }
    ensures marks { OnOk result
        (marks.new ≡ marks.old ++ marks_in parts.now i numbers.old.items) }
    ensures numbers { OnOk result (numbers.new.items ≡ numbers.old.items) }
{
    match part_at(parts, i) {
        Part::True => marks.push(GroundMark::True),
        Part::False => marks.push(GroundMark::False),
        Part::Holds(predicate, start, end) => {
            let name = atom(alloc, parts, numbers, predicate, start, end)?;
            marks.push(GroundMark::Name(name))
        }
        Part::Not(operand) => {
            add_marks(alloc, parts, operand, numbers, marks)?;
            marks.push(GroundMark::Not)
        }
        Part::Joined(connective, left, right) => {
            add_marks(alloc, parts, left, numbers, marks)?;
            add_marks(alloc, parts, right, numbers, marks)?;
            marks.push(GroundMark::Joined(connective))
        }
        Part::Bound(quantifier, variable, body) => {
            let before = numbers[variable as usize];
            for constant in 0..parts.constants.len() {
                numbers[variable as usize] = constant as u32;
                add_marks(alloc, parts, body, numbers, marks)?;
                join(marks, quantifier, constant)?;
            }
            numbers[variable as usize] = before;
            Ok(())
        }
    }
}

// The count of a part.
fn count_at(counts: &[u32], part: u32) -> u32
    requires there { part < length counts.now }
    ensures { result ≡ slice_index_or counts.now part result }
{
    counts[part as usize]
}

/// The marks of the ground formula of a part in postfix order, where the counts are those of
/// `counts`. With so many marks before it there are more marks than there may be exactly where the
/// answer is `TooLarge`.
pub fn ground_marks(
    alloc: Global,
    parts: &FirstOrderParts,
    counts: &[u32],
    root: u32,
    before: u32,
) -> Result<List<GroundMark>, GroundFault>
    requires sound { AreParts parts.now }
    requires counts { AreCounted parts.now (length parts.now.parts) counts.now }
    requires there { root < length parts.now.parts }
    requires before { before ≤ MOST_MARKS }
    ensures { IsGroundedPart parts.now root before result }
{
    let count = count_at(counts, root);
    if before + count > MOST_MARKS as u32 {
        return Err(GroundFault::TooLarge);
    }
    let mut numbers = zeros(alloc, parts.variables.len())?;
    let mut marks = List::new(alloc);
    add_marks(alloc, parts, root, &mut numbers, &mut marks)?;
    Ok(marks)
}

// So many zeros.
fn zeros(alloc: Global, count: usize) -> Result<Vec<u32>, NoMemory>
    ensures { IfOk result (λ v. v.items ≡ replicate count 0) }
{
    let mut numbers = Vec::new(alloc);
    for i in 0..count {
        let _i = i;
        numbers.push(0)?;
    }
    Ok(numbers)
}
