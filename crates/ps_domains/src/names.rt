//! Names in lists.
ghost use Rattle.std.specs.Prelude.{◌≡◌, IfOk};
ghost use Rattle.std.specs.List.{list_any};
ghost use Rattle.ps_problem.specs.Numbering.{same_name};
ghost use Rattle.ps_domains.specs.Names.{has_name, takes_more, binds};

use crate::declared::{Predicate, Scope};
use ps_io::{List, NoMemory};
use std::alloc::Global;

/// A copy of a name.
pub(crate) fn copy(alloc: Global, name: &[u8]) -> Result<List<u8>, NoMemory>
    ensures { IfOk result (λ list. list ≡ name.now) }
{
    Ok(List::from_vec(name.to_vec(alloc)?))
}

// Whether two names are the same.
fn same(a: &[u8], b: &[u8]) -> bool
    ensures { result ≡ same_name a.now b.now }
{
    a == b
}

/// Whether a name is in a list.
pub(crate) fn has(names: &[List<u8>], name: &[u8]) -> bool
    ensures { result ≡ list_any (same_name name.now) names.now }
{
    names.iter().any(|other| same(name, other.as_slice()))
}

// Whether a predicate has a name.
fn is_named(predicate: &Predicate, name: &[u8]) -> bool
    ensures { result ≡ has_name name.now predicate.now }
{
    same(name, predicate.name.as_slice())
}

/// Whether some predicate has a name.
pub(crate) fn has_predicate(predicates: &[Predicate], name: &[u8]) -> bool
    ensures { result ≡ list_any (has_name name.now) predicates.now }
{
    predicates.iter().any(|predicate| is_named(predicate, name))
}

// Whether a predicate has a name and takes more terms than so many.
fn takes_more(predicate: &Predicate, name: &[u8], count: u8) -> bool
    ensures { result ≡ takes_more name.now count predicate.now }
{
    same(name, predicate.name.as_slice()) && count < predicate.arity
}

/// Whether the predicate of a name takes more terms than so many.
pub(crate) fn has_more(predicates: &[Predicate], name: &[u8], count: u8) -> bool
    ensures { result ≡ list_any (takes_more name.now count) predicates.now }
{
    predicates
        .iter()
        .any(|predicate| takes_more(predicate, name, count))
}

// Whether a `(` is one behind a quantifier that binds a variable.
fn binds(scope: &Scope, name: &[u8]) -> bool
    ensures { result ≡ binds name.now scope.now }
{
    match scope {
        Scope::Group => false,
        Scope::Quantified(variable) => same(name, variable.as_slice()),
    }
}

/// Whether a variable is bound.
pub(crate) fn is_bound(scopes: &[Scope], name: &[u8]) -> bool
    ensures { result ≡ list_any (binds name.now) scopes.now }
{
    scopes.iter().any(|scope| binds(scope, name))
}
