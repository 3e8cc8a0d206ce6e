//! Turns of all queries, one after the other.
ghost use Rattle.std.specs.Prelude.{◌≡◌, ◌<◌, IfOk, None, OnOk, Some, get_or, length, set};
ghost use Rattle.ps_problem.specs.Problems.{HasNodes};
ghost use Rattle.ps_guess.specs.declared.turns.TheConstants.{MOST_TURNS};
ghost use Rattle.ps_ask.specs.Shown.{AreSettings};
ghost use Rattle.ps_ask.specs.Rounds.{AreRounds, AreFirstRounds, IsKnownAs, IsPending, IsPendingAt};

use crate::company::Company;
use crate::settings::Settings;
use crate::sought::Sought;
use ps_engine::Engine;
use ps_guess::{InTime, MOST_TURNS, Pending, Trials, Work, guess_turn, run_turn};
use ps_io::{List, NoMemory};
use ps_problem::Query;
use std::alloc::Global;

/// What is known of each query of a problem so far, and which turn is next.
#[derive(Drop)]
pub(crate) struct Rounds {
    /// What is known of each query; none of those that had no turn, or whose part is shown.
    pub(crate) pendings: Vec<Option<Pending>>,
    /// The turn that is next.
    pub(crate) turn: u32,
}

impl Rounds {
    /// Nothing is known of so many queries.
    #[tactic(auto, using(crate::proofs::RoundLaws::first_rounds))]
    pub(crate) fn new(alloc: Global, queries: usize) -> Result<Rounds, NoMemory>
        ensures { IfOk result AreFirstRounds }
    {
        let mut pendings = List::new(alloc);
        for _ in 0..queries {
            pendings.push(None)?;
        }
        Ok(Rounds {
            pendings: pendings.into_vec(),
            turn: 0,
        })
    }

    // Notes what is known of the query at a place.
    fn put(&mut self, place: usize, pending: Pending)
        ensures pendings { self.new.pendings.items
            ≡ set self.old.pendings.items place (Some pending) }
        ensures turn { self.new.turn ≡ self.old.turn }
    {
        if place < self.pendings.len() {
            self.pendings[place] = Some(pending);
        }
    }

    // Takes what is known of the query at a place, where something is.
    fn take(&mut self, place: usize) -> Option<Pending>
        ensures taken { result ≡ get_or self.old.pendings.items place None }
        ensures pendings { self.new.pendings.items ≡ set self.old.pendings.items place None }
        ensures turn { self.new.turn ≡ self.old.turn }
    {
        if place < self.pendings.len() {
            self.pendings[place].take()
        } else {
            None
        }
    }
}

// What is known, where something is, and else nothing.
fn known_or_nothing(pending: Option<Pending>) -> Pending
    ensures { IsKnownAs pending result }
{
    match pending {
        Some(pending) => pending,
        None => Pending::new(),
    }
}

// One more turn of a query: guesses, and a run where time is likely to do.
fn one_turn<W: Company>(
    alloc: Global,
    settings: Settings,
    trials: &Trials<'_>,
    query: Query,
    turn: u32,
    pending: Pending,
    timed: &mut InTime<'_, Engine, W>,
) -> Result<Pending, NoMemory>
    requires settings { AreSettings settings }
    requires query { HasNodes trials.now.nodes query.formula query.given query.both }
    requires few { turn < MOST_TURNS }
    requires pending { IsPending settings trials.now query pending }
    ensures { IfOk result (IsPending settings trials.now query) }
{
    let limits = settings.limits;
    let guessed = guess_turn(alloc, trials, query, limits, turn, pending, timed)?;
    if guessed.is_answered() || timed.watch.is_over() || !timed.watch.has_room(Work::Run, turn) {
        return Ok(guessed);
    }
    run_turn(alloc, trials, query, limits, turn, guessed)
}

// What is known of the query at a place behind one more turn, where it isn't answered and a turn is left.
#[tactic(auto, using(crate::proofs::RoundLaws::pending_of, crate::proofs::RoundLaws::there_ok))]
fn turn_of<W: Company>(
    alloc: Global,
    settings: Settings,
    trials: &Trials<'_>,
    place: usize,
    turn: u32,
    pending: Pending,
    timed: &mut InTime<'_, Engine, W>,
) -> Result<Pending, NoMemory>
    requires settings { AreSettings settings }
    requires place { place < length trials.now.queries }
    requires pending { IsPendingAt settings trials.now place pending }
    ensures { IfOk result (IsPendingAt settings trials.now place) }
{
    if pending.is_answered() || turn >= MOST_TURNS {
        return Ok(pending);
    }
    let queries = trials.problem().queries().as_slice();
    let query = queries[place];
    timed.watch.turn_to(Sought::Query {
        number: place.saturating_add(1),
        of: queries.len(),
    });
    one_turn(alloc, settings, trials, query, turn, pending, timed)
}

// One more turn of the query at a place, where it isn't answered, and whether it is answered then.
#[tactic(auto, using(crate::proofs::RoundLaws::rounds_taken, crate::proofs::RoundLaws::rounds_put, crate::proofs::RoundLaws::pending_taken))]
fn turn_at<W: Company>(
    alloc: Global,
    settings: Settings,
    trials: &Trials<'_>,
    place: usize,
    rounds: &mut Rounds,
    timed: &mut InTime<'_, Engine, W>,
) -> Result<bool, NoMemory>
    requires settings { AreSettings settings }
    requires place { place < length trials.now.queries }
    requires rounds { AreRounds settings trials.now rounds.old }
    ensures { OnOk result (AreRounds settings trials.now rounds.new) }
{
    let turn = rounds.turn;
    let known = known_or_nothing(rounds.take(place));
    let pending = turn_of(alloc, settings, trials, place, turn, known, timed)?;
    let is_answered = pending.is_answered();
    rounds.put(place, pending);
    Ok(is_answered)
}

// A turn of each query from the first one on, but none of those behind it where that is answered.
// Whether it is.
fn round<W: Company>(
    alloc: Global,
    settings: Settings,
    trials: &Trials<'_>,
    first: usize,
    rounds: &mut Rounds,
    timed: &mut InTime<'_, Engine, W>,
) -> Result<bool, NoMemory>
    requires settings { AreSettings settings }
    requires first { first < length trials.now.queries }
    requires rounds { AreRounds settings trials.now rounds.old }
    ensures { OnOk result (AreRounds settings trials.now rounds.new) }
{
    if turn_at(alloc, settings, trials, first, rounds, timed)? {
        return Ok(true);
    }
    for place in first.saturating_add(1)..trials.problem().queries().len() {
        if timed.watch.is_over() {
            return Ok(false);
        }
        turn_at(alloc, settings, trials, place, rounds, timed)?;
    }
    Ok(false)
}

// Makes rounds until the first query is answered, no turn is left, or time is over.
#[tactic(auto, using(crate::proofs::RoundLaws::rounds_at))]
fn make_rounds<W: Company>(
    alloc: Global,
    settings: Settings,
    trials: &Trials<'_>,
    first: usize,
    rounds: &mut Rounds,
    timed: &mut InTime<'_, Engine, W>,
) -> Result<(), NoMemory>
    requires settings { AreSettings settings }
    requires first { first < length trials.now.queries }
    requires rounds { AreRounds settings trials.now rounds.old }
    ensures { OnOk result (AreRounds settings trials.now rounds.new) }
{
    for turn in rounds.turn..MOST_TURNS {
        rounds.turn = turn;
        if timed.watch.is_over() || round(alloc, settings, trials, first, rounds, timed)? {
            return Ok(());
        }
    }
    rounds.turn = MOST_TURNS;
    Ok(())
}

/// What is known of the query at a place, behind rounds in which that query and those behind it have
/// turns: until it is answered, no turn is left, or time is over.
#[tactic(auto, using(crate::proofs::RoundLaws::rounds_taken, crate::proofs::RoundLaws::pending_taken))]
pub(crate) fn settle_query<W: Company>(
    alloc: Global,
    settings: Settings,
    trials: &Trials<'_>,
    place: usize,
    rounds: &mut Rounds,
    timed: &mut InTime<'_, Engine, W>,
) -> Result<Pending, NoMemory>
    requires settings { AreSettings settings }
    requires place { place < length trials.now.queries }
    requires rounds { AreRounds settings trials.now rounds.old }
    ensures known { IfOk result (IsPendingAt settings trials.now place) }
    ensures rounds { OnOk result (AreRounds settings trials.now rounds.new) }
{
    make_rounds(alloc, settings, trials, place, rounds, timed)?;
    Ok(known_or_nothing(rounds.take(place)))
}
