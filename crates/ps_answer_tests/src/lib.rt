//! Tests of the crates that guess answers and of those that answer for people, by their public calls.
#![tactic(auto)]

#[cfg(test)]
mod agreeing;
#[cfg(test)]
mod ask;
#[cfg(test)]
mod climb;
#[cfg(test)]
mod decimal;
#[cfg(test)]
mod engine;
#[cfg(test)]
mod explain;
#[cfg(test)]
mod float_pricing;
#[cfg(test)]
mod guided;
#[cfg(test)]
mod lifting;
#[cfg(test)]
mod problems;
#[cfg(test)]
mod simplex;
#[cfg(test)]
mod world_search;
