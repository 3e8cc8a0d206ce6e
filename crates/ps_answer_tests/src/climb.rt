//! What no clause says: that known best worlds are found, and the same ones in each run.
ghost use Rattle.std.specs.Prelude.{IsTrue, length};
ghost use Rattle.ps_formula.specs.Nodes.{Fits};

use ps_climb::{Demand, Draw, Goal, LocalSearch, drawn_world};
use ps_formula::{AddError, Formulas, Node, World};
use ps_io::NoMemory;
use std::alloc::Global;
use std::test::Fail;

/// Four atoms; both of the first two, and as much of the last two.
const NODES: [Node; 6] = [
    Node::Atom(0),
    Node::Atom(1),
    Node::Atom(2),
    Node::Atom(3),
    Node::And(0, 1),
    Node::Iff(2, 3),
];

/// The first two atoms pay only together: the best world has 3, at 1, 1, 0, 0. Where all are false it
/// is 2, and no single turn brings more.
const TOGETHER: [f64; 6] = [-1.0, -1.0, -1.0, 0.0, 3.0, 2.0];

/// What the best world is above.
const MOST: f64 = 2.5;

fn fits(formulas: &Formulas, node: Node) -> bool
    ensures { IsTrue result → Fits (length formulas.now) node }
{
    let len = formulas.len();
    match node {
        Node::True | Node::False => true,
        Node::Atom(n) => n < 128,
        Node::Not(a) => a < len,
        Node::And(a, b) | Node::Or(a, b) | Node::Implies(a, b) | Node::Iff(a, b) => {
            a < len && b < len
        }
    }
}

pub(crate) fn formulas_of(alloc: Global, nodes: &[Node]) -> Result<Formulas, AddError> {
    let mut formulas = Formulas::new(alloc);
    for node in nodes {
        if fits(&formulas, *node) {
            formulas.add(*node)?;
        }
    }
    Ok(formulas)
}

fn world_of(alloc: Global, values: &[bool]) -> Result<World, NoMemory> {
    let mut world = World::new(alloc);
    for value in values {
        world.push(*value)?;
    }
    Ok(world)
}

fn search_of(alloc: Global, nodes: &[Node], demands: &[Demand]) -> Result<LocalSearch, Fail> {
    let formulas = formulas_of(alloc, nodes)?;
    Ok(LocalSearch::new(alloc, &formulas, 4, demands, 7)?)
}

fn goal(threshold: f64) -> Goal<'static> {
    Goal {
        coefficients: &TOGETHER,
        constant: 0.0,
        threshold,
    }
}

fn is(found: Option<World>, values: &[bool]) -> bool {
    found.is_some_and(|world| world.as_slice() == values)
}

#[test]
fn a_way_leads_down_and_up(rt: HostRuntime) -> Result<(), Fail> {
    let mut search = search_of(rt.alloc(), &NODES, &[])?;
    let start = world_of(rt.alloc(), &[false; 4])?;
    let found = search.search(goal(MOST), &start, 20)?;
    assert!(rt; is(found, &[true, true, false, false]));
    Ok(())
}

#[test]
fn a_climb_ends_where_no_turn_brings_more(rt: HostRuntime) -> Result<(), Fail> {
    let mut search = search_of(rt.alloc(), &NODES, &[])?;
    let low = world_of(rt.alloc(), &[false; 4])?;
    assert!(rt; search.climb(goal(MOST), &low, 20)?.is_none());
    let near = world_of(rt.alloc(), &[true, false, true, false])?;
    let found = search.climb(goal(MOST), &near, 20)?;
    assert!(rt; is(found, &[true, true, false, false]));
    Ok(())
}

#[test]
fn demands_are_met(rt: HostRuntime) -> Result<(), Fail> {
    // With the third atom the best world has 2; without the first one too.
    let start = world_of(rt.alloc(), &[false; 4])?;
    let mut third = search_of(rt.alloc(), &NODES, &[Demand::True(2)])?;
    let found = third.search(goal(1.5), &start, 20)?;
    assert!(rt; is(found, &[true, true, true, true]));
    let mut neither = search_of(
        rt.alloc(),
        &NODES,
        &[Demand::Implies(0, 2), Demand::False(2)],
    )?;
    assert!(rt; neither.search(goal(MOST), &start, 20)?.is_none());
    Ok(())
}

#[test]
fn the_same_in_each_run(rt: HostRuntime) -> Result<(), Fail> {
    // Many best worlds: each pair of atoms may differ in two ways.
    let coefficients = [0.0, 0.0, 0.0, 0.0, 0.0, -1.0];
    let goal = Goal {
        coefficients: &coefficients,
        constant: 0.0,
        threshold: -0.5,
    };
    let mut one = search_of(rt.alloc(), &NODES, &[])?;
    let mut other = search_of(rt.alloc(), &NODES, &[])?;
    let start = drawn_world(rt.alloc(), &mut Draw::new(3), 4)?;
    let same = drawn_world(rt.alloc(), &mut Draw::new(3), 4)?;
    let found = one.search(goal, &start, 20)?;
    assert!(rt; start == same && found.is_some());
    assert!(rt; found == other.search(goal, &same, 20)?);
    Ok(())
}

#[test]
fn the_best_of_all_worlds(rt: HostRuntime) -> Result<(), Fail> {
    let further = world_of(rt.alloc(), &[false; 4])?;
    let mut all = search_of(rt.alloc(), &NODES, &[])?;
    assert!(rt; is(all.best(goal(MOST), &further)?, &[true, true, false, false]));
    assert!(rt; all.best(goal(3.0), &further)?.is_none());
    let mut third = search_of(rt.alloc(), &NODES, &[Demand::True(2)])?;
    assert!(rt; is(third.best(goal(1.5), &further)?, &[true, true, true, true]));
    Ok(())
}

#[test]
fn the_best_world_of_a_later_block(rt: HostRuntime) -> Result<(), Fail> {
    // Of nine atoms the last and the first; the others cost.
    let mut nodes = [Node::Atom(0); 9];
    let mut coefficients = [-1.0; 9];
    for (number, node) in (0..9u16).zip(nodes.iter_mut()) {
        *node = Node::Atom(number);
    }
    coefficients[0] = 1.0;
    coefficients[8] = 1.0;
    let formulas = formulas_of(rt.alloc(), &nodes)?;
    let mut search = LocalSearch::new(rt.alloc(), &formulas, 9, &[], 7)?;
    let goal = Goal {
        coefficients: &coefficients,
        constant: 0.0,
        threshold: 1.5,
    };
    let found = search.best(goal, &world_of(rt.alloc(), &[false; 9])?)?;
    let wanted = [true, false, false, false, false, false, false, false, true];
    assert!(rt; is(found, &wanted));
    Ok(())
}
