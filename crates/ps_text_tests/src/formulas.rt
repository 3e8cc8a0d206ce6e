//! What no clause says: that calls succeed where there is memory, and that the connectives have
//! their usual tables.
ghost use Rattle.std.specs.Prelude.{◌≡◌, ◌≤◌, length, All, OnOk, IfOk};
ghost use Rattle.ps_formula.specs.Nodes.{Fits, AtomBelow};

use indexmap::IndexSet;
use ps_formula::{AddError, Formulas, Node, World, eval};
use ps_io::NoMemory;
use std::alloc::Global;
use std::test::*;

fn world(alloc: Global, a: bool, b: bool) -> Result<World, NoMemory>
    ensures { IfOk result (λ w. length w ≡ 2) }
{
    let mut world = World::new(alloc);
    world.push(a)?;
    world.push(b)?;
    Ok(world)
}

fn connective(i: u32) -> Node
    ensures fits { Fits 2 result }
    ensures atom { AtomBelow 2 result }
{
    match i {
        0 => Node::True,
        1 => Node::False,
        2 => Node::Not(0),
        3 => Node::And(0, 1),
        4 => Node::Or(0, 1),
        5 => Node::Implies(0, 1),
        _ => Node::Iff(0, 1),
    }
}

fn two_atoms(alloc: Global) -> Result<Formulas, AddError>
    ensures two { IfOk result (λ f. length f ≡ 2) }
    ensures atoms { IfOk result (λ f. All (AtomBelow 2) f) }
{
    let mut formulas = Formulas::new(alloc);
    formulas.add(Node::Atom(0))?;
    formulas.add(Node::Atom(1))?;
    Ok(formulas)
}

// Adds a node over two nodes and two atoms.
fn add(formulas: &mut Formulas, node: Node) -> Result<u32, AddError>
    requires two { 2 ≤ length formulas.old }
    requires fits { Fits 2 node }
    requires old_atoms { All (AtomBelow 2) formulas.old }
    requires atom { AtomBelow 2 node }
    ensures long { OnOk result (2 ≤ length formulas.new) }
    ensures atoms { OnOk result (All (AtomBelow 2) formulas.new) }
{
    formulas.add(node)
}

fn connectives(alloc: Global) -> Result<Formulas, AddError>
    ensures { IfOk result (λ f. All (AtomBelow 2) f) }
{
    let mut formulas = two_atoms(alloc)?;
    for i in 0..7 {
        add(&mut formulas, connective(i))?;
    }
    Ok(formulas)
}

// The values of two atoms, and of the connectives over them.
const ROWS: [[bool; 9]; 4] = [
    [false, false, true, false, true, false, false, true, true],
    [false, true, true, false, true, false, true, true, false],
    [true, false, true, false, false, false, true, false, false],
    [true, true, true, false, false, true, true, true, true],
];

fn has_values(alloc: Global, formulas: &Formulas, row: &[bool; 9]) -> bool
    requires { All (AtomBelow 2) formulas.now }
{
    let Ok(world) = world(alloc, row[0], row[1]) else {
        return false;
    };
    eval(alloc, formulas, &world).is_ok_and(|values| values.as_slice() == row.as_slice())
}

#[test]
fn connectives_have_their_tables(rt: HostRuntime) -> Result<(), Fail> {
    let formulas = connectives(rt.alloc())?;
    assert!(rt;
        ROWS.iter()
            .all(|row| has_values(rt.alloc(), &formulas, row))
    );
    Ok(())
}

fn full_list(alloc: Global) -> Result<Formulas, AddError> {
    let mut formulas = Formulas::new(alloc);
    formulas.add(Node::True)?;
    for i in 0..1023 {
        if i < formulas.len() {
            formulas.add(Node::Not(i))?;
        }
    }
    Ok(formulas)
}

fn is_full(formulas: &mut Formulas) -> bool {
    formulas.len() == 1024
        && formulas.add(Node::Not(500)) == Ok(501)
        && formulas.add(Node::False) == Err(AddError::Full)
}

#[test]
fn a_full_list_refuses_new_nodes(rt: HostRuntime) -> Result<(), Fail> {
    let mut formulas = full_list(rt.alloc())?;
    assert!(rt; is_full(&mut formulas));
    Ok(())
}

#[test]
fn a_world_as_key(rt: HostRuntime) -> Result<(), Fail> {
    let alloc = rt.alloc();
    let mut worlds = IndexSet::new(alloc);
    let world = world(alloc, true, false)?;
    let again = world.copy(alloc)?;
    worlds.insert(world)?;
    assert_eq!(rt; worlds.get_index_of(&again), Some(0));
    Ok(())
}
