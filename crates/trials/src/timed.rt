//! Searches that are timed, and trials of the search: small searches over logs in memory and of lines, random forms
//! whose refutations the checker takes, and random weighted problems against an answer from trying all assignments.
use crate::chain::chain_pricings;
use crate::propagations::propagations;
use crate::searches::{
    forty_variables, pricings, refutations, rows, six_pigeons, sixty_variables, weighted_problems,
};

/// How many forms, or problems, are timed.
const TIMED: u32 = 20;

/// What is timed.
#[derive(Clone, Copy)]
pub enum Timed {
    /// Random forms of 60 variables.
    Sixty,
    /// Six pigeons in five holes.
    Pigeons,
    /// Weighted problems of 40 variables.
    Forty,
    /// The pricings of a chain.
    Chain,
}

/// Searches, and writes what was found.
pub fn time_search(rt: &HostRuntime, timed: Timed) -> anyhow::Result<()> {
    let alloc = rt.alloc();
    match timed {
        Timed::Sixty => {
            let (decided, steps) = sixty_variables(alloc, TIMED)?;
            println!(rt; "{decided} decided, {steps} steps")?;
        }
        Timed::Pigeons => {
            let (refuted, steps) = six_pigeons(alloc)?;
            println!(rt; "refuted: {refuted}, {steps} steps")?;
        }
        Timed::Forty => {
            let some = forty_variables(alloc, TIMED)?;
            println!(rt; "{some} have a value")?;
        }
        Timed::Chain => println!(rt; "{} of 92 pricings", chain_pricings(alloc)?)?,
    }
    Ok(())
}

/// Writes how many trials went as they should.
pub fn try_search(rt: &HostRuntime) -> anyhow::Result<()> {
    let alloc = rt.alloc();
    println!(rt; "small searches: {} of 5", rows(alloc)?)?;
    println!(rt; "small problems: {} of 5", pricings(alloc)?)?;
    println!(rt;
        "propagations as by passes: {} of 200",
        propagations(alloc, 200)?
    )?;
    println!(rt;
        "random forms decided: {} of 10",
        sixty_variables(alloc, 10)?.0
    )?;
    println!(rt; "refutations taken: {} of 200", refutations(alloc, 200)?)?;
    println!(rt; "pigeons refuted: {}", six_pigeons(alloc)?.0)?;
    println!(rt;
        "values as by trying: {} of 300",
        weighted_problems(alloc, 300)?
    )?;
    println!(rt; "pricings of a chain: {} of 92", chain_pricings(alloc)?)?;
    Ok(())
}
