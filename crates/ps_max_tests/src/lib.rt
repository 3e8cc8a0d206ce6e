//! Tests of weighted clauses, from bytes to optima that are accepted.
#![tactic(auto)]

#[cfg(test)]
mod optima;
#[cfg(test)]
mod refused;
