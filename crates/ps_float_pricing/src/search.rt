//! The search by clauses for worlds of a problem.

use crate::relaxed::Relaxed;
use ps_io::NoMemory;
use ps_problem::{Problem, Row};
use ps_world_search::WorldSearch;
use std::alloc::Global;

// Adds the nodes of a row's terms.
fn cite_row(cited: &mut Vec<u32>, row: &Row) -> Result<(), NoMemory> {
    for term in row.terms.as_slice() {
        cited.push(term.0)?;
    }
    Ok(())
}

// The nodes that count for rows and queries.
fn cited_nodes(alloc: Global, problem: &Problem) -> Result<Vec<u32>, NoMemory> {
    let mut cited = Vec::new(alloc);
    for row in problem.rows() {
        cite_row(&mut cited, row)?;
    }
    for query in problem.queries().as_slice() {
        cited.push(query.both)?;
        if let Some(given) = query.given {
            cited.push(given)?;
        }
    }
    Ok(cited)
}

/// A search over the worlds of a problem that meet its certainties.
pub(crate) fn search_over(
    alloc: Global,
    problem: &Problem,
    relaxed: &Relaxed,
) -> Result<WorldSearch, NoMemory> {
    let cited = cited_nodes(alloc, problem)?;
    let mut search = WorldSearch::new(alloc, problem.formulas(), problem.atoms(), &cited)?;
    for certainty in relaxed.certainties() {
        search.demand(certainty.demand())?;
    }
    Ok(search)
}
