//! The pricing of a float program.

use crate::climbing::Climbing;
use crate::effort::Effort;
use crate::face_goal::FaceGoal;
use crate::float_goal::FloatGoal;
use crate::goal::Goal;
use crate::limits::{ALL_CONFLICTS, FACE_SEARCHES, FEW_ATOMS, MOST_SEARCHES};
use crate::pool::Member;
use crate::relaxed::Relaxed;
use crate::scaled::Scaled;
use crate::search::search_over;
use crate::wishes::wishes_of;
use ps_formula::World;
use ps_io::NoMemory;
use ps_problem::Problem;
use ps_world_search::{Ended, WorldSearch};
use std::alloc::Global;

/// What a pricing finds.
#[derive(Drop)]
pub enum Priced {
    /// Worlds, each with a gain of more than was asked.
    Found(Vec<Member>),
    /// There is no such world.
    NoneAbove,
    /// The search was spent.
    Spent,
}

/// Finds worlds of a problem whose column improves a float program.
#[derive(Drop)]
pub struct FloatPricer {
    alloc: Global,
    search: WorldSearch,
    climbing: Climbing,
    /// How many conflicts the searches may still make.
    left: u64,
    /// Whether light searches go first.
    is_light: bool,
    /// Whether they have settled a pricing.
    has_been_light: bool,
}

// The greatest value of a goal in these worlds, or so much.
fn greatest(goal: &Goal, members: &[Member], least: i128) -> i128 {
    let mut most = least;
    for member in members {
        most = most.max(goal.value(&member.truth));
    }
    most
}

// A quarter more.
fn quarter_more(value: i128) -> i128 {
    value.wrapping_add((value / 4).max(1))
}

// What was found.
fn what_was(found: Vec<Member>) -> Priced {
    if found.is_empty() {
        Priced::NoneAbove
    } else {
        Priced::Found(found)
    }
}

impl FloatPricer {
    /// For the worlds of a problem.
    pub fn new(
        alloc: Global,
        problem: &Problem,
        relaxed: &Relaxed,
    ) -> Result<FloatPricer, NoMemory> {
        Ok(FloatPricer {
            alloc,
            search: search_over(alloc, problem, relaxed)?,
            climbing: Climbing::new(alloc, problem, relaxed)?,
            left: ALL_CONFLICTS,
            is_light: true,
            has_been_light: false,
        })
    }

    /// Goes over to the certainties of another split of the problem.
    pub fn keep(&mut self, problem: &Problem, relaxed: &Relaxed) -> Result<(), NoMemory> {
        self.search = search_over(self.alloc, problem, relaxed)?;
        self.climbing = Climbing::new(self.alloc, problem, relaxed)?;
        self.left = ALL_CONFLICTS;
        self.is_light = true;
        self.has_been_light = false;
        Ok(())
    }

    /// From now on local search goes first. Answers whether light searches have settled a pricing.
    pub fn put_local_first(&mut self) -> bool {
        let has_been_light = self.has_been_light;
        self.is_light = false;
        self.has_been_light = false;
        has_been_light
    }

    /// Whether light searches go first, or did, and have settled a pricing.
    pub fn has_been_light(&self) -> bool {
        self.has_been_light
    }

    /// A world in which the goal is at least 1.
    pub fn first(&mut self, problem: &Problem, goal: &Goal) -> Result<Priced, NoMemory> {
        self.search.set_goal(goal.weights(), goal.base(), &[])?;
        match self.seek(1, Effort::Long)? {
            Ended::Found(world) => self.one(Member::new(self.alloc, problem, world)?),
            Ended::Nothing => Ok(Priced::NoneAbove),
            Ended::Spent => Ok(Priced::Spent),
        }
    }

    // From now on searches are for a gain. Answers it in whole numbers.
    fn set_gain(&mut self, problem: &Problem, gain: &FloatGoal) -> Result<Scaled, NoMemory> {
        let scaled = Scaled::new(self.alloc, gain)?;
        let wishes = wishes_of(self.alloc, problem.formulas().nodes(), gain.weights())?;
        self.search
            .set_goal(scaled.goal.weights(), scaled.goal.base(), &wishes)?;
        Ok(scaled)
    }

    // Looks for a world in which the goal is at least so much.
    fn seek(&mut self, least: i128, effort: Effort) -> Result<Ended, NoMemory> {
        let before = self.search.conflicts();
        let ended = self.search.seek(least, effort.conflicts(self.left))?;
        let met = self.search.conflicts().saturating_sub(before);
        self.left = self.left.saturating_sub(met);
        Ok(ended)
    }

    // One world.
    fn one(&self, member: Option<Member>) -> Result<Priced, NoMemory> {
        let Some(member) = member else {
            return Ok(Priced::Spent);
        };
        let mut found = Vec::new(self.alloc);
        found.push(member)?;
        Ok(Priced::Found(found))
    }

    /// Worlds with a gain of more than so much, from these worlds.
    ///
    /// Light searches by the clause form go first as long as none meets a conflict, as where the
    /// formulas are a chain: they show that no gain is a quarter more than the greatest one found.
    /// After that local search goes first: it is quick, and its worlds have large gains, so that few
    /// pivots follow. Where it finds none, each world is looked at where there are few atoms, and else
    /// worlds are sought by the clause form: to the end where that is thorough, else with few conflicts.
    pub fn price(
        &mut self,
        problem: &Problem,
        gain: &FloatGoal,
        above: f64,
        starts: &[World],
        is_thorough: bool,
    ) -> Result<Priced, NoMemory> {
        if self.is_light {
            match self.search_lightly(problem, gain, above)? {
                Priced::Spent => {}
                priced => return Ok(priced),
            }
        }
        let mut found = Vec::new(self.alloc);
        self.climbing
            .climb_all(problem, gain, above, starts, &mut found)?;
        if !found.is_empty() {
            return Ok(Priced::Found(found));
        }
        if problem.atoms() <= FEW_ATOMS {
            self.climbing.best(problem, gain, above, &mut found)?;
            return Ok(what_was(found));
        }
        self.search_hard(problem, gain, above, is_thorough)
    }

    // The same by light searches: each is for a gain that is a quarter more than the one before. Where one
    // is spent, so is all, and from then on local search goes first.
    fn search_lightly(
        &mut self,
        problem: &Problem,
        gain: &FloatGoal,
        above: f64,
    ) -> Result<Priced, NoMemory> {
        let scaled = self.set_gain(problem, gain)?;
        let mut found = Vec::new(self.alloc);
        let mut least = scaled.least(above);
        for _ in 0..MOST_SEARCHES {
            match self.seek(least, Effort::Light)? {
                Ended::Nothing => break,
                Ended::Spent => {
                    self.is_light = false;
                    return Ok(Priced::Spent);
                }
                Ended::Found(world) => {
                    if let Some(member) = Member::new(self.alloc, problem, world)? {
                        found.push(member)?;
                    }
                    least = quarter_more(greatest(&scaled.goal, &found, least));
                }
            }
        }
        self.has_been_light = true;
        Ok(what_was(found))
    }

    // The same by the clause form. The first search makes few conflicts; where it is spent and nothing
    // was found, another makes many if it is to be thorough. From each world that is found a local search
    // goes on, and the next search is for a gain that is a quarter more.
    fn search_hard(
        &mut self,
        problem: &Problem,
        gain: &FloatGoal,
        above: f64,
        is_thorough: bool,
    ) -> Result<Priced, NoMemory> {
        let scaled = self.set_gain(problem, gain)?;
        let mut found = Vec::new(self.alloc);
        let mut least = scaled.least(above);
        let mut effort = Effort::Short;
        for _ in 0..MOST_SEARCHES {
            match self.seek(least, effort)? {
                Ended::Nothing => return Ok(what_was(found)),
                Ended::Spent if !found.is_empty() => return Ok(Priced::Found(found)),
                Ended::Spent if effort == Effort::Long || !is_thorough => return Ok(Priced::Spent),
                Ended::Spent => effort = Effort::Long,
                Ended::Found(world) => {
                    self.keep_world(problem, gain, above, world, &mut found)?;
                    least = quarter_more(greatest(&scaled.goal, &found, least));
                    effort = Effort::Short;
                }
            }
        }
        Ok(what_was(found))
    }

    // Keeps a world, and the one that a local search from it leads to.
    fn keep_world(
        &mut self,
        problem: &Problem,
        gain: &FloatGoal,
        above: f64,
        world: World,
        found: &mut Vec<Member>,
    ) -> Result<(), NoMemory> {
        self.climbing.climb(problem, gain, above, &world, found)?;
        if let Some(member) = Member::new(self.alloc, problem, world)? {
            found.push(member)?;
        }
        Ok(())
    }

    /// A world of a large gain within the face on which a goal, at most 0 in each world, is 0. Each search
    /// is for a gain that is a quarter more than the one before. None where there is no gain, and where
    /// the first search is spent.
    pub fn price_on_face(
        &mut self,
        problem: &Problem,
        relaxed: &Relaxed,
        face: &Goal,
        gain: &FloatGoal,
    ) -> Result<Option<Member>, NoMemory> {
        let Some(sought) = FaceGoal::new(self.alloc, relaxed, face, gain)? else {
            return Ok(None);
        };
        self.search
            .set_goal(sought.goal.weights(), sought.goal.base(), gain.weights())?;
        let mut best = None;
        let mut least = sought.least;
        for _ in 0..FACE_SEARCHES {
            let effort = if best.is_none() {
                Effort::Long
            } else {
                Effort::Short
            };
            let Ended::Found(world) = self.seek(least, effort)? else {
                return Ok(best);
            };
            let Some(member) = Member::new(self.alloc, problem, world)? else {
                return Ok(best);
            };
            least = quarter_more(sought.goal.value(&member.truth).max(least));
            best = Some(member);
        }
        Ok(best)
    }
}
