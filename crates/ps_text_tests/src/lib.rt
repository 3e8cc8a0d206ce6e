//! Tests of the crates that read and write problem texts, and of streams. They call only what these crates offer to all, so
//! they stand above them, in a crate that has nothing else.
#![tactic(auto)]

#[cfg(test)]
mod building;
#[cfg(test)]
mod canonical;
#[cfg(test)]
mod expecting;
#[cfg(test)]
mod formulas;
#[cfg(test)]
mod hints;
#[cfg(test)]
mod lexing;
#[cfg(test)]
mod making;
#[cfg(test)]
mod outlets;
#[cfg(test)]
mod parsing;
#[cfg(test)]
mod reading;
#[cfg(test)]
mod room;
#[cfg(test)]
mod streams;
