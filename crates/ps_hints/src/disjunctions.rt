//! Which formulas are joined by `|`.
ghost use Rattle.std.specs.Prelude.{◌≡◌, ◌<◌, ◌||◌, false, IfOk, List, ℕ, length, map};
ghost use Rattle.std.specs.Prelude.{slice_index_or, vec_len};
ghost use Rattle.ps_meaning.specs.Formula.{Formula};
ghost use Rattle.ps_formula.specs.Nodes.{AreNodes, Fits, tree_over, trees};
ghost use Rattle.ps_problem.specs.Problems.{tree_at};
ghost use Rattle.ps_hints.specs.Warnings.{has_or, is_one_or};

use ps_formula::Node;
use ps_io::NoMemory;
use ps_problem::Problem;
use std::alloc::Global;

// Whether `|` stands in one of two formulas.
fn has_either(ors: &[bool], left: u32, right: u32) -> bool
    requires left { left < length ors.now }
    requires right { right < length ors.now }
    ensures { result ≡ (slice_index_or ors.now left false
        || slice_index_or ors.now right false) }
{
    ors[left as usize] || ors[right as usize]
}

// Whether `|` stands in the formula of a node, where it is known of the nodes before.
fn has_or(node: Node, ors: &[bool]) -> bool
    requires { Fits (length ors.now) node }
    ensures { (ts : List (Formula ℕ)) → ors.now ≡ map has_or ts
        → result ≡ has_or (tree_over ts node) }
{
    match node {
        Node::True | Node::False | Node::Atom(_) => false,
        Node::Not(a) => ors[a as usize],
        Node::Or(_, _) => true,
        Node::And(a, b) | Node::Implies(a, b) | Node::Iff(a, b) => has_either(ors, a, b),
    }
}

// Whether `|` stands in the formula of each node.
fn have_or(alloc: Global, nodes: &[Node]) -> Result<Vec<bool>, NoMemory>
    requires { AreNodes nodes.now }
    ensures ors { IfOk result (λ v. v.items ≡ map has_or (trees nodes.now)) }
    ensures len { IfOk result (λ v. vec_len v ≡ length nodes.now) }
{
    let mut ors = Vec::new(alloc);
    for node in nodes {
        let has = has_or(*node, &ors);
        ors.push(has)?;
    }
    Ok(ors)
}

/// Whether a formula is joined by one `|`, at its top.
pub(crate) fn is_one_or(alloc: Global, problem: &Problem, node: u32) -> Result<bool, NoMemory>
    requires { node < length problem.now.nodes }
    ensures { IfOk result (λ one. one ≡ is_one_or (tree_at problem.now.nodes node)) }
{
    let nodes = problem.formulas().nodes();
    match nodes[node as usize] {
        Node::Or(left, right) => {
            let ors = have_or(alloc, nodes)?;
            Ok(!has_either(&ors, left, right))
        }
        _ => Ok(false),
    }
}
