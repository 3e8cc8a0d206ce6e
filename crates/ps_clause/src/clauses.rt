//! The clauses that say what nodes mean.
ghost use Rattle.std.specs.Prelude.{◌≡◌, ◌≤◌, ◌<◌, ◌++◌, [], ◌∷◌, length, map, IfOk, OnOk};
ghost use Rattle.std.specs.List.{list_any};
ghost use Rattle.std.specs.Ordering.{int_eq};
ghost use Rattle.ps_formula.specs.Nodes.{Fits as FitsAt, AreNodes};
ghost use Rattle.ps_pb.specs.Weights.{clause_of};
ghost use Rattle.ps_pb.specs.declared.limits.TheConstants.{MOST_VARIABLES};
ghost use Rattle.ps_clause.specs.Clauses.{positive, negative, once, is_tautology, tidy};
ghost use Rattle.ps_clause.specs.Clauses.{clauses_at, clause_form};
ghost use Rattle.ps_clause.specs.Forms.{is_other, form_of};

use crate::form::ClauseForm;
use ps_formula::{Formulas, Node};
use ps_io::{List, NoMemory};
use ps_pb::{Constraint, Lit, clause};
use std::alloc::Global;

// The literal that a node is true.
fn positive(node: u32) -> Lit
    requires { node < MOST_VARIABLES }
    ensures { result ≡ positive node }
{
    Lit::of_place(node as usize, true)
}

// The literal that a node is false.
fn negative(node: u32) -> Lit
    requires { node < MOST_VARIABLES }
    ensures { result ≡ negative node }
{
    Lit::of_place(node as usize, false)
}

fn contains(lits: &[Lit], lit: Lit) -> bool
    ensures { result ≡ list_any (int_eq lit) lits.now }
{
    let number = lit.number();
    lits.iter().any(|other| number == other.number())
}

fn is_tautology(lits: &[Lit]) -> bool
    ensures { result ≡ is_tautology lits.now }
{
    lits.iter().any(|lit| contains(lits, lit.opposite()))
}

// Each literal once.
fn once(alloc: Global, lits: &[Lit]) -> Result<Vec<Lit>, NoMemory>
    ensures { IfOk result (λ kept. kept.items ≡ once lits.now) }
{
    let mut kept = Vec::new(alloc);
    for lit in lits {
        if !contains(&kept, *lit) {
            kept.push(*lit)?;
        }
    }
    Ok(kept)
}

// Adds a clause, each literal once, unless it is a tautology.
fn add_tidy(alloc: Global, clauses: &mut List<Constraint>, lits: &[Lit]) -> Result<(), NoMemory>
    ensures { OnOk result (clauses.new ≡ clauses.old ++ map clause_of (tidy (lits.now ∷ []))) }
{
    if is_tautology(lits) {
        return Ok(());
    }
    let lits = once(alloc, lits)?;
    clauses.push(clause(alloc, &lits)?)
}

// Adds the clauses of one node.
#[tactic(auto, using(crate::proofs::Tidied::adds_more_clauses))]
fn add_node(
    alloc: Global,
    clauses: &mut List<Constraint>,
    x: u32,
    node: Node,
) -> Result<(), NoMemory>
    requires number { x < MOST_VARIABLES }
    requires fits { FitsAt x node }
    ensures { OnOk result (clauses.new ≡ clauses.old ++ map clause_of (clauses_at x node)) }
{
    match node {
        Node::True => add_tidy(alloc, clauses, &[positive(x)]),
        Node::False => add_tidy(alloc, clauses, &[negative(x)]),
        Node::Atom(_) => Ok(()),
        Node::Not(a) => {
            add_tidy(alloc, clauses, &[positive(x), positive(a)])?;
            add_tidy(alloc, clauses, &[negative(x), negative(a)])
        }
        Node::And(a, b) => {
            add_tidy(alloc, clauses, &[negative(x), positive(a)])?;
            add_tidy(alloc, clauses, &[negative(x), positive(b)])?;
            add_tidy(alloc, clauses, &[positive(x), negative(a), negative(b)])
        }
        Node::Or(a, b) => {
            add_tidy(alloc, clauses, &[positive(x), negative(a)])?;
            add_tidy(alloc, clauses, &[positive(x), negative(b)])?;
            add_tidy(alloc, clauses, &[negative(x), positive(a), positive(b)])
        }
        Node::Implies(a, b) => {
            add_tidy(alloc, clauses, &[positive(x), positive(a)])?;
            add_tidy(alloc, clauses, &[positive(x), negative(b)])?;
            add_tidy(alloc, clauses, &[negative(x), negative(a), positive(b)])
        }
        Node::Iff(a, b) => {
            add_tidy(alloc, clauses, &[negative(x), negative(a), positive(b)])?;
            add_tidy(alloc, clauses, &[negative(x), positive(a), negative(b)])?;
            add_tidy(alloc, clauses, &[positive(x), positive(a), positive(b)])?;
            add_tidy(alloc, clauses, &[positive(x), negative(a), negative(b)])
        }
    }
}

/// The clauses of all nodes, in the nodes' order.
pub(crate) fn clauses_of_nodes(alloc: Global, nodes: &[Node]) -> Result<List<Constraint>, NoMemory>
    requires sound { AreNodes nodes.now }
    requires most { length nodes.now ≤ MOST_VARIABLES }
    ensures { IfOk result (λ cs. cs ≡ map clause_of (clause_form nodes.now)) }
{
    let mut clauses = List::new(alloc);
    for x in 0..nodes.len() {
        add_node(alloc, &mut clauses, x as u32, nodes[x])?;
    }
    Ok(clauses)
}

fn is_other(node: &Node) -> bool
    ensures { result ≡ is_other node.now }
{
    !matches!(node, Node::Atom(_))
}

/// Whether each node is no atom, in the nodes' order.
pub(crate) fn others_of(alloc: Global, nodes: &[Node]) -> Result<List<bool>, NoMemory>
    ensures { IfOk result (λ others. others ≡ map is_other nodes.now) }
{
    let mut others = List::new(alloc);
    for node in nodes {
        others.push(is_other(node))?;
    }
    Ok(others)
}

/// The clause form of formulas (Tseitin 1968). The variable of a node has the node's number plus 1.
/// The clauses stand in the order of the nodes; a repeated literal stands once, and a clause with a
/// literal and its opposite is left out.
pub fn clauses_of(alloc: Global, formulas: &Formulas) -> Result<ClauseForm, NoMemory>
    ensures { IfOk result (λ form. form ≡ form_of formulas.now) }
{
    ClauseForm::of_nodes(alloc, formulas.nodes())
}
