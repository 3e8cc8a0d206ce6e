//! The assignment of the nodes' variables that a world gives, and the world that one gives.
ghost use Rattle.std.specs.Prelude.{◌≡◌, ◌≤◌, List, Bool, false, length, All, IfOk, replicate};
ghost use Rattle.ps_formula.specs.Nodes.{AreNodes, AtomBelow};
ghost use Rattle.ps_pb.specs.Assignments.{all_unset, full, values_of};
ghost use Rattle.ps_pb.specs.declared.limits.TheConstants.{MOST_VARIABLES};
ghost use Rattle.ps_clause.specs.Extensions.{extension, world_of, IsWorldOf, HasSetAtoms};

use ps_formula::{Formulas, Node, World, eval};
use ps_io::NoMemory;
use ps_pb::{Assignment, Lit};
use std::alloc::Global;

/// Gives each node's variable the node's truth value in a world, which has a value for each atom.
#[tactic(auto, using(crate::proofs::Assigned::extension_length))]
pub fn names_of(alloc: Global, formulas: &Formulas, world: &World) -> Result<Assignment, NoMemory>
    requires { All (AtomBelow (length world.now)) formulas.now }
    ensures { IfOk result (λ a. a ≡ full (extension formulas.now world.now)) }
{
    let truths = eval(alloc, formulas, world)?;
    let mut assignment = Assignment::new(alloc, formulas.len())?;
    set_all(&mut assignment, &truths);
    Ok(assignment)
}

// Sets each variable.
#[tactic(auto, using(crate::proofs::Assigned::none_set, crate::proofs::Assigned::one_set))]
fn set_all(assignment: &mut Assignment, truths: &[bool])
    requires unset { assignment.old ≡ all_unset (length truths.now) }
    requires most { length truths.now ≤ MOST_VARIABLES }
    ensures { assignment.new ≡ full truths.now }
{
    for place in 0..truths.len() {
        assignment.set(Lit::of_place(place, truths[place]));
    }
}

/// The world that an assignment gives: an atom has the value of its node's variable. It is false
/// where that is unset, or no node is the atom.
pub fn world_of(
    alloc: Global,
    formulas: &Formulas,
    atoms: u16,
    a: &Assignment,
) -> Result<World, NoMemory>
    requires { All (AtomBelow atoms) formulas.now }
    ensures value { IfOk result (IsWorldOf atoms formulas.now (values_of a.now)) }
    ensures length { IfOk result (λ world. length world ≡ atoms) }
    ensures atoms { IfOk result (HasSetAtoms formulas.now a.now) }
    ensures full { (w : List Bool) → a.now ≡ full w → IfOk result (IsWorldOf atoms formulas.now w) }
{
    let mut values = vec![in alloc; false; atoms as usize]?;
    set_atoms(formulas.nodes(), a, &mut values);
    world_of_values(alloc, &values)
}

// Gives each atom the value of its node's variable.
fn set_atoms(nodes: &[Node], a: &Assignment, values: &mut [bool])
    requires sound { AreNodes nodes.now }
    requires most { length nodes.now ≤ MOST_VARIABLES }
    requires atoms { All (AtomBelow (length values.old)) nodes.now }
    requires unset { values.old ≡ replicate (length values.old) false }
    ensures { values.new ≡ world_of (length values.old) nodes.now (values_of a.now) }
{
    for i in 0..nodes.len() {
        if let Node::Atom(atom) = nodes[i] {
            values[atom as usize] = a.value(i as u32 + 1).unwrap_or(false);
        }
    }
}

fn world_of_values(alloc: Global, values: &[bool]) -> Result<World, NoMemory>
    ensures { IfOk result (λ world. world ≡ values.now) }
{
    let mut world = World::new(alloc);
    for value in values {
        world.push(*value)?;
    }
    Ok(world)
}
