//! Trials of answers by guesses: a problem on standard input, its report on standard output, and what the
//! engine did on standard error. The second word sets how many pivots a run makes where no guess is shown.
use crate::answering::{Ended, Work, answer_to};
use ps_answer::MOST_PIVOTS;
use ps_io::{StdSink, StdSource};
use std::env;
use std::process::ExitCode;

/// How many pivots a run makes where no word names a number.
const DEFAULT_PIVOTS: u64 = 10_000;

// How many pivots the words ask for; none where they aren't one number of those allowed.
fn pivots_of(rt: &HostRuntime) -> anyhow::Result<Option<u64>> {
    let mut words = env::args(rt)?;
    let _program = words.next();
    let _command = words.next();
    let Some(word) = words.next() else {
        return Ok(Some(DEFAULT_PIVOTS));
    };
    if words.next().is_some() {
        return Ok(None);
    }
    let pivots = word.as_str().parse::<u64>().ok();
    Ok(pivots.filter(|pivots| *pivots <= MOST_PIVOTS))
}

/// Reads a problem and writes its report. Its statuses are those of `psat solve`, but for 2 where the
/// words are no number of pivots, and 5 for any failure.
pub fn answer(rt: &HostRuntime) -> anyhow::Result<ExitCode> {
    let Some(pivots) = pivots_of(rt)? else {
        eprintln!(rt;
            "answer takes one word more: how many pivots a run makes, at most {MOST_PIVOTS}"
        )?;
        return Ok(ExitCode::from(2));
    };
    let mut input = StdSource::new(rt.stdin());
    let mut output = StdSink::new(rt.stdout());
    let ended = answer_to(rt.alloc(), pivots, &mut input, &mut output);
    let (code, work) = match ended {
        Ended::Done(work) => (0, Some(work)),
        Ended::Inconsistent(work) => (1, Some(work)),
        Ended::Unreadable => (3, None),
        Ended::Unfinished(work) => (4, Some(work)),
        Ended::Failed => (5, None),
    };
    if let Some(Work { pivots, worlds }) = work {
        eprintln!(rt; "pivots {pivots}, worlds {worlds}")?;
    }
    Ok(ExitCode::from(code))
}
