//! The form of hard and soft clauses, their weighted literals, and the base of values.
ghost use Rattle.std.specs.Prelude.{◌≡◌, ◌≤◌, ◌<◌, ◌+◌, ◌++◌, [], ◌∷◌};
ghost use Rattle.std.specs.Prelude.{All, length, IfOk, OnOk, map};
ghost use Rattle.ps_pb.specs.Assignments.{place};
ghost use Rattle.ps_pb.specs.declared.limits.TheConstants.{MOST_VARIABLES};
ghost use Rattle.ps_clause.specs.Limits.{most_clauses};
ghost use Rattle.ps_wcnf.specs.Built.{with_clauses, IsNamedBelow, AreNamedBelow};
ghost use Rattle.ps_wcnf.specs.Built.{HardNamed, SoftNamed};
ghost use Rattle.ps_wcnf.specs.Limits.{IsText};
ghost use Rattle.ps_wcnf.specs.Valued.{after, variables_after, own_clause, own_clauses};
ghost use Rattle.ps_wcnf.specs.Valued.{own_literal, own_literals, form_of, literals_of};

use crate::checks::check_text;
use crate::shape::{is_long, is_tautology, once};
use crate::text::WcnfText;
use ps_clause::ClauseForm;
use ps_io::{List, NoMemory};
use ps_pb::{Lit, Lits, WeightedLits};
use std::alloc::Global;

// Adds a clause, each literal once, unless one is the opposite of another.
fn add_clause(alloc: Global, form: &mut ClauseForm, lits: &[Lit]) -> Result<(), NoMemory>
    requires named { AreNamedBelow form.old.variables lits.now }
    requires room { length form.old.clauses < most_clauses }
    ensures { OnOk result (form.new ≡ with_clauses form.old (lits.now ∷ [])) }
{
    let kept = once(alloc, lits)?;
    if is_tautology(&kept) {
        return Ok(());
    }
    form.add(&kept)
}

// Adds the clause of some literals and one more.
fn add_longer(alloc: Global, form: &mut ClauseForm, lits: &[Lit], own: Lit) -> Result<(), NoMemory>
    requires named { AreNamedBelow form.old.variables lits.now }
    requires own { IsNamedBelow form.old.variables own }
    requires room { length form.old.clauses < most_clauses }
    ensures { OnOk result (form.new ≡ with_clauses form.old ((lits.now ++ own ∷ []) ∷ [])) }
{
    let mut longer = Vec::from_slice(alloc, lits)?;
    longer.push(own)?;
    add_clause(alloc, form, &longer)
}

// Adds literals, each with the weight.
fn push_each(literals: &mut WeightedLits, lits: &[Lit], weight: i128) -> Result<(), NoMemory>
    ensures { OnOk result (literals.new ≡ literals.old ++ map (λ l. (l, weight)) lits.now) }
{
    for lit in lits {
        literals.push((*lit, weight))?;
    }
    Ok(())
}

// Adds the own clause of a soft clause and the literal that stands for it, and answers the number
// of variables after it.
fn add_soft(
    alloc: Global,
    form: &mut ClauseForm,
    literals: &mut WeightedLits,
    n: u32,
    clause: &(i128, Lits),
) -> Result<u32, NoMemory>
    requires named { AreNamedBelow n clause.now.1 }
    requires variables { after n clause.now ≤ form.old.variables }
    requires few { form.old.variables ≤ MOST_VARIABLES }
    requires room { length form.old.clauses < most_clauses }
    ensures form { OnOk result (form.new ≡ with_clauses form.old (own_clause n clause.now)) }
    ensures literals { OnOk result (literals.new ≡ literals.old ++ own_literal n clause.now) }
    ensures count { IfOk result (λ m. m ≡ after n clause.now) }
{
    let kept = once(alloc, clause.1.as_slice())?;
    if is_tautology(&kept) {
        return Ok(n);
    }
    if 1 < kept.len() {
        let own = Lit::of_place(n as usize, false);
        add_longer(alloc, form, clause.1.as_slice(), own)?;
        literals.push((own.opposite(), clause.0))?;
        return Ok(n + 1);
    }
    push_each(literals, &kept, clause.0)?;
    Ok(n)
}

// Adds hard clauses.
fn add_hard(alloc: Global, form: &mut ClauseForm, hard: &[Lits]) -> Result<(), NoMemory>
    requires named { HardNamed form.old.variables hard.now }
    requires room { length form.old.clauses + length hard.now < most_clauses }
    ensures { OnOk result (form.new ≡ with_clauses form.old hard.now) }
{
    for lits in hard {
        add_clause(alloc, form, lits.as_slice())?;
    }
    Ok(())
}

// Adds the own clauses of soft clauses, and answers the literals that stand for them.
fn add_softs(
    alloc: Global,
    form: &mut ClauseForm,
    first: u32,
    soft: &[(i128, Lits)],
) -> Result<WeightedLits, NoMemory>
    requires named { SoftNamed first soft.now }
    requires variables { variables_after first soft.now ≤ form.old.variables }
    requires few { form.old.variables ≤ MOST_VARIABLES }
    requires room { length form.old.clauses + length soft.now < most_clauses }
    ensures form { OnOk result (form.new ≡ with_clauses form.old (own_clauses first soft.now)) }
    ensures literals { IfOk result (λ ts. ts ≡ own_literals first soft.now) }
{
    let mut literals = List::new(alloc);
    let mut n = first;
    for clause in soft {
        n = add_soft(alloc, form, &mut literals, n, clause)?;
    }
    Ok(literals)
}

// The number of variables after a soft clause.
fn after(alloc: Global, n: u32, clause: &(i128, Lits)) -> Result<u32, NoMemory>
    requires { after n clause.now ≤ MOST_VARIABLES }
    ensures { IfOk result (λ m. m ≡ after n clause.now) }
{
    if is_long(alloc, clause.1.as_slice())? {
        Ok(n + 1)
    } else {
        Ok(n)
    }
}

// The number of variables after soft clauses.
fn variables_after(alloc: Global, first: u32, soft: &[(i128, Lits)]) -> Result<u32, NoMemory>
    requires { variables_after first soft.now ≤ MOST_VARIABLES }
    ensures { IfOk result (λ n. n ≡ variables_after first soft.now) }
{
    let mut n = first;
    for clause in soft {
        n = after(alloc, n, clause)?;
    }
    Ok(n)
}

/// The form of a text, and its weighted literals.
pub(crate) fn form_of(
    alloc: Global,
    text: &WcnfText,
) -> Result<(ClauseForm, WeightedLits), NoMemory>
    requires { IsText text.now }
    ensures form { IfOk result (λ r. r.0 ≡ form_of text.now) }
    ensures literals { IfOk result (λ r. r.1 ≡ literals_of text.now) }
    ensures placed { IfOk result (λ r. All (λ t. place t.0 < r.0.variables) r.1) }
{
    check_text(text);
    let variables = variables_after(alloc, text.variables, text.soft.as_slice())?;
    let mut form = ClauseForm::new(alloc, variables);
    add_hard(alloc, &mut form, text.hard.as_slice())?;
    let literals = add_softs(alloc, &mut form, text.variables, text.soft.as_slice())?;
    Ok((form, literals))
}
