//! Programs that time and try parts of psat, in one; the first word chooses. `fractions` adds and multiplies, `table` pivots,
//! and of the search `sixty`, `pigeons`, `forty` and `chain` are timed from outside. `search` tries the search, `answer` answers a
//! problem by guesses, and `all` runs these two, some fractions and some pivots.
#![tactic(auto)]

mod answering;
mod answers;
mod chain;
mod draw;
mod forms;
mod fractions;
mod pricings;
mod problems;
mod propagations;
mod refutations;
mod rows;
mod searches;
mod tables;
mod timed;

use crate::answers::answer;
use crate::fractions::time_fractions;
use crate::tables::time_table;
use crate::timed::{Timed, time_search, try_search};
use std::env;
use std::process::ExitCode;

const USAGE: &str = "trials takes a first word: all, answer [PIVOTS], chain, forty, \
fractions [SUMS PRODUCTS], pigeons, search, sixty, table [PIVOTS]";

/// What is to be run.
#[derive(Clone, Copy)]
enum Command {
    All,
    Answer,
    Fractions,
    Search,
    Table,
    Timed(Timed),
}

fn command_of(rt: &HostRuntime) -> anyhow::Result<Option<Command>> {
    let Some(word) = env::args(rt)?.nth(1) else {
        return Ok(None);
    };
    Ok(match word.as_str() {
        "all" => Some(Command::All),
        "answer" => Some(Command::Answer),
        "chain" => Some(Command::Timed(Timed::Chain)),
        "forty" => Some(Command::Timed(Timed::Forty)),
        "fractions" => Some(Command::Fractions),
        "pigeons" => Some(Command::Timed(Timed::Pigeons)),
        "search" => Some(Command::Search),
        "sixty" => Some(Command::Timed(Timed::Sixty)),
        "table" => Some(Command::Table),
        _ => None,
    })
}

fn main(rt: HostRuntime) -> anyhow::Result<ExitCode> {
    let Some(command) = command_of(&rt)? else {
        eprintln!(rt; "{USAGE}")?;
        return Ok(ExitCode::from(2));
    };
    match command {
        Command::All => {
            time_fractions(&rt)?;
            time_table(&rt)?;
            try_search(&rt)?;
            return answer(&rt);
        }
        Command::Answer => return answer(&rt),
        Command::Fractions => time_fractions(&rt)?,
        Command::Search => try_search(&rt)?,
        Command::Table => time_table(&rt)?,
        Command::Timed(timed) => time_search(&rt, timed)?,
    }
    Ok(ExitCode::from(0))
}
