//! The check of the steps of a refutation, one by one.
#![tactic(auto)]

mod checker;
mod hints;
mod refused;

pub use checker::Checker;
pub use refused::StepRefused;

#[cfg(test)]
mod tests;
