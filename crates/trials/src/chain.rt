//! The pricings on the way to the lower bound of a chain's last atom: the first atom has a
//! probability of at least 9/10, each implication from an atom to the next one of at least 99/100.
ghost use Rattle.std.specs.Prelude.{◌<◌, ◌≤◌, ◌+◌, length};
ghost use Rattle.ps_formula.specs.Nodes.{Fits};
ghost use Rattle.trials.specs.declared.chain.TheConstants.{LINKS};

use ps_clause::{ClauseForm, clauses_of};
use ps_formula::{AddError, Formulas, Node};
use ps_io::{List, NoMemory};
use ps_log::HeldLog;
use ps_maxsat::{Priced, Wcnf, best};
use ps_pb::Lit;
use ps_sat::SearchError;
use std::alloc::Global;

/// So many implications.
const LINKS: u16 = 90;

/// So many clauses each search is let learn.
const CONFLICTS: u64 = 20_000;

// Adds a node, where there is room for it.
fn add(formulas: &mut Formulas, node: Node) -> Result<(), NoMemory>
    requires { Fits (length formulas.old) node }
{
    match formulas.add(node) {
        Ok(_) | Err(AddError::Full) => Ok(()),
        Err(AddError::NoMemory) => Err(NoMemory),
    }
}

// Adds an implication between two nodes, where they are there.
fn add_link(formulas: &mut Formulas, from: u32, to: u32) -> Result<(), NoMemory> {
    if from < formulas.len() && to < formulas.len() {
        add(formulas, Node::Implies(from, to))?;
    }
    Ok(())
}

// The first atom at place 0, and behind it each further atom and the implication to it: at places 1
// and 2, 3 and 4, and so on.
fn chain(alloc: Global) -> Result<ClauseForm, NoMemory> {
    let mut formulas = Formulas::new(alloc);
    add(&mut formulas, Node::Atom(0))?;
    let mut from = 0u32;
    for atom in 0..LINKS {
        let to = atom as u32 * 2 + 1;
        add(&mut formulas, Node::Atom(atom + 1))?;
        add_link(&mut formulas, from, to)?;
        from = to;
    }
    clauses_of(alloc, &formulas)
}

// The problem after so many bounds, the last implication's first and the first atom's last, weigh as
// much as the last atom: which world's column improves.
fn problem(alloc: Global, bounds: u16) -> Result<Wcnf, NoMemory>
    requires { bounds ≤ LINKS + 1 }
{
    let mut soft = List::new(alloc);
    soft.push((Lit::of_place(LINKS as usize * 2 - 1, true), -100))?;
    for bound in 0..bounds {
        let place = (LINKS - bound) as usize * 2;
        soft.push((Lit::of_place(place, true), 100))?;
    }
    Ok(Wcnf {
        hard: chain(alloc)?,
        soft,
        base: 100 - 100 * bounds as i128,
    })
}

// What the greatest value after so many bounds is.
fn best_after(alloc: Global, bounds: u16) -> Result<Option<Priced>, SearchError>
    requires { bounds ≤ LINKS + 1 }
{
    let wcnf = problem(alloc, bounds)?;
    if !wcnf.is_narrow() || !wcnf.is_soft_within() {
        return Ok(None);
    }
    let mut log = HeldLog::new(alloc);
    Ok(Some(best(alloc, &wcnf, CONFLICTS, &mut log)?))
}

/// How many of the 92 pricings end as they should: a world improves by 100 until all bounds are
/// used, and none does then.
pub fn chain_pricings(alloc: Global) -> Result<u32, SearchError> {
    let mut right = 0u32;
    for bounds in 0..LINKS + 1 {
        if let Some(Priced::Best { value: 100, .. }) = best_after(alloc, bounds)? {
            right = right.wrapping_add(1);
        }
    }
    if let Some(Priced::NoneAbove { last: _ }) = best_after(alloc, LINKS + 1)? {
        right = right.wrapping_add(1);
    }
    Ok(right)
}
