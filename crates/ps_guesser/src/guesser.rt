//! Guessers.
use crate::progress::Progress;
use ps_answer::{Dual, Model};
use ps_claims::ClaimKind;
use ps_formula::World;
use ps_io::NoMemory;
use ps_problem::{Problem, Query};

/// A guess of a bound.
#[derive(Drop)]
pub struct Guess {
    /// A distribution that reaches it.
    pub model: Model,
    /// The multipliers that show that it is a bound; steps are not asked for.
    pub dual: Dual,
}

/// What makes guesses. Nothing rests on them.
pub trait Guesser {
    /// From now on guesses are about the problem with the sentences alone that are kept, by a truth
    /// value for each; a guessed dual has a multiplier for each of the problem's bounds all the same,
    /// 0 at those that aren't kept. Before the first call each sentence is kept.
    fn keep(&mut self, problem: &Problem, kept: &[bool]) -> Result<(), NoMemory>;

    /// A distribution that meets each bound, or none where it has no guess.
    fn model(&mut self, problem: &Problem) -> Result<Option<Model>, NoMemory>;

    /// What shows that the query's evidence is impossible, or without a query that the bounds
    /// contradict one another.
    fn nothing(
        &mut self,
        problem: &Problem,
        query: Option<Query>,
    ) -> Result<Option<Dual>, NoMemory>;

    /// A bound of the query on a side.
    fn bound(
        &mut self,
        problem: &Problem,
        kind: ClaimKind,
        query: Query,
    ) -> Result<Option<Guess>, NoMemory>;

    /// Is told a world in which the last dual's combination is at least 1.
    fn add(&mut self, world: World) -> Result<(), NoMemory>;

    /// How far the last guess is, where the call paused before it had one: the same call goes on with
    /// it. None where the call came to its end.
    fn progress(&self) -> Option<Progress>;
}
