//! Tests of the crates that write, read and judge reports: constraints, logs, lines, whole reports,
//! claims, and reports line by line.
#![tactic(auto)]

#[cfg(test)]
mod constraints;
#[cfg(test)]
mod log_goals;
#[cfg(test)]
mod log_steps;
#[cfg(test)]
mod logs;
#[cfg(test)]
mod report_lines;
#[cfg(test)]
mod report_places;
#[cfg(test)]
mod report_reading;
#[cfg(test)]
mod report_writing;
#[cfg(test)]
mod streamed;
#[cfg(test)]
mod streamed_inputs;
#[cfg(test)]
mod validity;
