//! Which formulas an atom stands in.
ghost use Rattle.std.specs.Prelude.{◌≡◌, ◌<◌, ◌||◌, IfOk, false, length, map};
ghost use Rattle.std.specs.Prelude.{slice_index_or, vec_len};
ghost use Rattle.ps_formula.specs.Nodes.{AreNodes, Fits, trees};
ghost use Rattle.ps_hints.specs.Warnings.{IsUnstated, TellsIn, TellsInBound, TellsInTerms};
ghost use Rattle.ps_hints.specs.Warnings.{TellsOver, has_atom};

use ps_formula::Node;
use ps_io::NoMemory;
use ps_problem::{Bound, Problem, Sentence};
use std::alloc::Global;

// Whether the atom stands in one of two formulas.
fn has_either(marks: &[bool], left: u32, right: u32) -> bool
    requires left { left < length marks.now }
    requires right { right < length marks.now }
    ensures { result ≡ (slice_index_or marks.now left false
        || slice_index_or marks.now right false) }
{
    marks[left as usize] || marks[right as usize]
}

// Whether an atom stands in the formula of a node, where it is known of the nodes before.
fn has_atom(node: Node, marks: &[bool], atom: u16) -> bool
    requires { Fits (length marks.now) node }
    ensures { TellsOver atom marks.now node result }
{
    match node {
        Node::True | Node::False => false,
        Node::Atom(a) => a == atom,
        Node::Not(a) => marks[a as usize],
        Node::And(a, b) | Node::Or(a, b) | Node::Implies(a, b) | Node::Iff(a, b) => {
            has_either(marks, a, b)
        }
    }
}

// Whether an atom stands in the formula of each node.
fn have_atom(alloc: Global, nodes: &[Node], atom: u16) -> Result<Vec<bool>, NoMemory>
    requires { AreNodes nodes.now }
    ensures marks { IfOk result (λ v. v.items ≡ map (has_atom atom) (trees nodes.now)) }
    ensures len { IfOk result (λ v. vec_len v ≡ length nodes.now) }
{
    let mut marks = Vec::new(alloc);
    for node in nodes {
        let has = has_atom(*node, &marks, atom);
        marks.push(has)?;
    }
    Ok(marks)
}

// Whether a node is marked; one that isn't there isn't.
fn is_marked(marks: &[bool], node: u32) -> bool
    ensures { result ≡ slice_index_or marks.now node false }
{
    match marks.get(node as usize) {
        Some(mark) => *mark,
        None => false,
    }
}

// Whether an atom stands in a sentence, where it is marked in which nodes it stands.
fn stands_in(sentence: &Sentence, marks: &[bool]) -> bool
    ensures { TellsIn marks.now sentence.now result }
{
    match sentence {
        Sentence::Plain { first, .. } => stands_in_bound(first, marks),
        Sentence::Linear(linear) => stands_in_terms(linear.terms.as_slice(), marks),
    }
}

// Whether an atom stands in a bound's formula or condition.
#[tactic(auto, using(crate::proofs::Atoms::atom_at))]
fn stands_in_bound(bound: &Bound, marks: &[bool]) -> bool
    ensures { TellsInBound marks.now bound.now result }
{
    if is_marked(marks, bound.formula) {
        return true;
    }
    match bound.given {
        Some(given) => is_marked(marks, given),
        None => false,
    }
}

// Whether an atom stands in a formula of some terms.
fn stands_in_terms(terms: &[(u32, i64)], marks: &[bool]) -> bool
    ensures { TellsInTerms marks.now terms.now result }
{
    for term in terms {
        if is_marked(marks, term.0) {
            return true;
        }
    }
    false
}

/// Whether an atom stands in a sentence.
pub(crate) fn is_stated(alloc: Global, problem: &Problem, atom: u16) -> Result<bool, NoMemory>
    ensures { IfOk result (λ s. s ≡ false
        → IsUnstated problem.now.nodes problem.now.sentences atom) }
{
    let marks = have_atom(alloc, problem.formulas().nodes(), atom)?;
    for sentence in problem.sentences().as_slice() {
        if stands_in(sentence, &marks) {
            return Ok(true);
        }
    }
    Ok(false)
}
