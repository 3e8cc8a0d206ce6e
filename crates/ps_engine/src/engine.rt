//! The engine's state.

use crate::about::About;
use crate::basis_system::BasisSystem;
use crate::descent::Descent;
use crate::limits::{BASIC_STARTS, MOST_MENDED, MOST_PIVOTS, MOST_REPAIRS, MOST_TOLD, SEED};
use crate::pace::Pace;
use crate::proof::Proof;
use crate::tolerances::Tolerances;
use ps_climb::{Draw, drawn_world};
use ps_float_pricing::{Aim, FloatGoal, FloatPricer, Member, Priced, Relaxed, WorldPool};
use ps_formula::World;
use ps_guesser::Progress;
use ps_io::NoMemory;
use ps_problem::Problem;
use ps_simplex_float::{Column, Ending, MOST_ROWS, Phase, RowKind, Simplex};
use std::alloc::Global;
use std::num::nearest_i64_to_f64;

/// What is known of the problem's sentences.
#[derive(Clone, Copy, PartialEq, Debug)]
pub(crate) enum Stage {
    /// Nothing yet.
    Fresh,
    /// The first phase is on its way.
    Begun,
    /// The program has a basis that meets the bounds.
    Feasible,
    /// No world meets the certainties.
    Excluded,
    /// The bounds contradict one another: they are this far from being met.
    Inconsistent(f64),
    /// It wasn't found.
    Unknown,
}

/// Guesses answers to a problem, and keeps the worlds that it met.
#[derive(Drop)]
pub struct Engine {
    pub(crate) alloc: Global,
    pub(crate) tolerances: Tolerances,
    pub(crate) relaxed: Relaxed,
    pub(crate) pricer: FloatPricer,
    pub(crate) simplex: Simplex,
    pub(crate) pool: WorldPool,
    /// Worlds that are to enter the basis.
    pub(crate) waiting: Vec<World>,
    /// What is to enter the basis.
    pub(crate) forced: Option<Column>,
    /// The evidence of row 0.
    pub(crate) given: Option<u32>,
    pub(crate) aim: Option<Aim>,
    pub(crate) stage: Stage,
    /// How often the present guess was mended.
    pub(crate) mended: u32,
    /// How often worlds were told that it overlooked.
    pub(crate) told: u32,
    /// How many roundings of the refutation were tried.
    pub(crate) roundings: u32,
    /// How many worlds of the present face were sought.
    pub(crate) on_face: u32,
    /// How many ways to smaller numbers began at the present basis.
    pub(crate) descents: u32,
    /// The way that goes on.
    pub(crate) descent: Option<Descent>,
    /// Proofs of guesses that were begun, one for an aim at most.
    pub(crate) proofs: Vec<Proof>,
    /// Aims for which a proof was given up.
    pub(crate) unproved: Vec<Aim>,
    pub(crate) gain: FloatGoal,
    /// How far the objective is from its end, as far as is known.
    pub(crate) gap: f64,
    pub(crate) pace: Pace,
    /// The pivots that were made before it began anew.
    pub(crate) earlier_pivots: u64,
    draw: Draw,
}

/// The kinds of a program's rows: that of the evidence first.
pub(crate) fn kinds_of(alloc: Global, relaxed: &Relaxed) -> Result<Vec<RowKind>, NoMemory> {
    let mut kinds = vec![in alloc; RowKind::Equal; 1]?;
    for row in relaxed.rows() {
        kinds.push(if row.is_equation() {
            RowKind::Equal
        } else {
            RowKind::AtMost
        })?;
    }
    Ok(kinds)
}

// The program without columns; that of the first row alone where the rows are too many.
fn program(alloc: Global, relaxed: &Relaxed) -> Result<Simplex, NoMemory> {
    let kinds = kinds_of(alloc, relaxed)?;
    if kinds.is_empty() || kinds.len() > MOST_ROWS {
        return Ok(Simplex::new(alloc, &[RowKind::Equal], &[1.0])?);
    }
    Ok(Simplex::new(alloc, &kinds, &[1.0])?)
}

// The world of the basic column at a place.
fn basic_member<'p>(pool: &'p WorldPool, basis: &[Column], place: usize) -> Option<&'p Member> {
    match basis.get(place).copied()? {
        Column::Added(number) => pool.members().get(number),
        Column::Slack(_) | Column::Artificial(_) | Column::NegativeArtificial(_) => None,
    }
}

impl Engine {
    /// An engine for a problem.
    pub fn new(alloc: Global, problem: &Problem) -> Result<Engine, NoMemory> {
        Engine::with_tolerances(alloc, problem, Tolerances::usual())
    }

    /// The same with these tolerances.
    pub fn with_tolerances(
        alloc: Global,
        problem: &Problem,
        tolerances: Tolerances,
    ) -> Result<Engine, NoMemory> {
        let relaxed = Relaxed::new(alloc, problem, &[])?;
        Ok(Engine {
            alloc,
            tolerances,
            pricer: FloatPricer::new(alloc, problem, &relaxed)?,
            simplex: program(alloc, &relaxed)?,
            pool: WorldPool::new(alloc),
            waiting: Vec::new(alloc),
            forced: None,
            given: None,
            aim: None,
            stage: Stage::Fresh,
            mended: 0,
            told: 0,
            roundings: 0,
            on_face: 0,
            descents: 0,
            descent: None,
            proofs: Vec::new(alloc),
            unproved: Vec::new(alloc),
            gain: FloatGoal::new(alloc, relaxed.nodes())?,
            gap: 1.0,
            pace: Pace::steady(),
            earlier_pivots: 0,
            draw: Draw::new(SEED),
            relaxed,
        })
    }

    // Goes over to the sentences that are kept, with the worlds that meet their certainties.
    pub(crate) fn go_over(&mut self, problem: &Problem, kept: &[bool]) -> Result<(), NoMemory> {
        self.relaxed = Relaxed::new(self.alloc, problem, kept)?;
        self.pricer.keep(problem, &self.relaxed)?;
        let members = self.forget()?;
        self.earlier_pivots = 0;
        self.take_all(members)?;
        Ok(())
    }

    // Where worlds were found without local search, forgets them, and answers true: from now on local
    // search goes first.
    pub(crate) fn begin_anew(&mut self) -> Result<bool, NoMemory> {
        if !self.pricer.put_local_first() {
            return Ok(false);
        }
        self.forget()?;
        Ok(true)
    }

    // Forgets all but the sentences that are kept, and hands over the worlds that were known.
    fn forget(&mut self) -> Result<Vec<Member>, NoMemory> {
        self.earlier_pivots = self.pivots();
        self.simplex = program(self.alloc, &self.relaxed)?;
        self.waiting = Vec::new(self.alloc);
        self.forced = None;
        self.proofs = Vec::new(self.alloc);
        self.unproved = Vec::new(self.alloc);
        self.given = None;
        self.aim = None;
        self.stage = Stage::Fresh;
        self.mended = 0;
        self.told = 0;
        self.roundings = 0;
        self.end_descents();
        self.gap = 1.0;
        self.pace.end();
        Ok(std::mem::replace(&mut self.pool, WorldPool::new(self.alloc)).into_members())
    }

    // Takes a world in, and answers whether it is new and meets the certainties.
    pub(crate) fn take(&mut self, member: Member) -> Result<bool, NoMemory> {
        if !self.relaxed.allows(&member.truth) || self.pool.place(&member.world).is_some() {
            return Ok(false);
        }
        let column = self.relaxed.column(self.alloc, self.given, &member.truth)?;
        let cost = match self.aim {
            Some(aim) => nearest_i64_to_f64(aim.cost(&member.truth)),
            None => 0.0,
        };
        self.simplex.add_column(&column, cost)?;
        self.pool.add(member)?;
        Ok(true)
    }

    // Takes in the worlds that were told, of which the last one is to enter the basis. Answers
    // whether all of them are new.
    pub(crate) fn take_waiting(&mut self, problem: &Problem) -> Result<bool, NoMemory> {
        let mut all_new = true;
        let waiting = std::mem::replace(&mut self.waiting, Vec::new(self.alloc));
        for world in waiting {
            match Member::new(self.alloc, problem, world)? {
                None => all_new = false,
                Some(member) => {
                    if self.take(member)? {
                        let last = self.pool.members().len().wrapping_sub(1);
                        self.forced = Some(Column::Added(last));
                    } else {
                        all_new = false;
                    }
                }
            }
        }
        Ok(all_new)
    }

    // Sets the costs of an aim.
    pub(crate) fn set_aim(&mut self, aim: Aim) {
        self.aim = Some(aim);
        self.simplex.set_phase(match aim {
            Aim::Consistent => Phase::One,
            Aim::Least(_) | Aim::Greatest(_) => Phase::Two,
        });
        for (number, member) in self.pool.members().iter().enumerate() {
            self.simplex
                .set_cost(number, nearest_i64_to_f64(aim.cost(&member.truth)));
        }
    }

    // Makes the probability of a condition the first row.
    pub(crate) fn set_given(&mut self, given: Option<u32>) -> Result<bool, NoMemory> {
        if self.given == given {
            return Ok(true);
        }
        self.simplex.clean(MOST_REPAIRS);
        let mut entries = Vec::new(self.alloc);
        for member in self.pool.members() {
            let entry = self.relaxed.entry(0, given, &member.truth);
            entries.push(nearest_i64_to_f64(entry))?;
        }
        self.given = given;
        Ok(self.simplex.replace_row(0, &entries))
    }

    // The equations of the basis in whole numbers, where they have one solution.
    pub(crate) fn system(&self) -> Result<Option<BasisSystem>, NoMemory> {
        BasisSystem::new(
            self.alloc,
            &self.relaxed,
            &self.pool,
            self.given,
            self.simplex.basis(),
        )
    }

    // What the distributions of the program are about, for an aim.
    pub(crate) fn about(&self, aim: Aim) -> About<'_> {
        About {
            relaxed: &self.relaxed,
            pool: &self.pool,
            given: self.given,
            aim,
        }
    }

    // Goes to the least cost over the worlds of the pool.
    pub(crate) fn optimise(&mut self) -> bool {
        if let Some(column) = self.forced {
            self.forced = None;
            if !self.simplex.force(column) {
                return false;
            }
        }
        match self.simplex.minimise(MOST_PIVOTS) {
            Ending::Optimal => true,
            Ending::OutOfPivots => false,
            Ending::Unbounded | Ending::Unstable => {
                self.simplex.clean(MOST_REPAIRS);
                self.simplex.perturb();
                self.simplex.minimise(MOST_PIVOTS) == Ending::Optimal
            }
        }
    }

    // Looks for worlds that improve, and takes them in. Answers how many, or nothing where the search
    // was spent; one that isn't thorough soon is.
    pub(crate) fn price(
        &mut self,
        problem: &Problem,
        aim: Aim,
        above: f64,
        is_thorough: bool,
    ) -> Result<Option<u32>, NoMemory> {
        self.simplex.find_duals();
        self.relaxed
            .write_gain(aim, self.simplex.duals(), &mut self.gain);
        let starts = self.starts(problem)?;
        let priced = self
            .pricer
            .price(problem, &self.gain, above, &starts, is_thorough)?;
        match priced {
            Priced::NoneAbove => Ok(Some(0)),
            Priced::Spent => Ok(None),
            Priced::Found(members) => {
                self.gap = self.greatest_gain(&members);
                self.end_descents();
                Ok(Some(self.take_all(members)?))
            }
        }
    }

    // What was tried at the present basis counts no more.
    pub(crate) fn end_descents(&mut self) {
        self.on_face = 0;
        self.descents = 0;
        self.descent = None;
    }

    // The greatest gain of these worlds.
    fn greatest_gain(&self, members: &[Member]) -> f64 {
        let mut greatest: f64 = 0.0;
        for member in members {
            greatest = greatest.max(self.gain.value(&member.truth));
        }
        greatest
    }

    // The guess pauses before this round.
    pub(crate) fn pause(&mut self, round: u32, gap: f64) {
        let progress = Progress {
            worlds: self.pool.members().len(),
            gap,
        };
        self.pace.pause(round, progress);
    }

    // Worlds from which local search starts: some basic ones, and one that is drawn.
    fn starts(&mut self, problem: &Problem) -> Result<Vec<World>, NoMemory> {
        let mut starts = Vec::new(self.alloc);
        let basis = self.simplex.basis();
        if basis.is_empty() {
            return Ok(starts);
        }
        for _ in 0..BASIC_STARTS {
            let place = self.draw.below(basis.len() as u64) as usize;
            if let Some(member) = basic_member(&self.pool, basis, place) {
                starts.push(member.world.copy(self.alloc)?)?;
            }
        }
        let atoms = problem.atoms() as usize;
        starts.push(drawn_world(self.alloc, &mut self.draw, atoms)?)?;
        Ok(starts)
    }

    // Takes worlds in, and answers how many of them are new.
    pub(crate) fn take_all(&mut self, members: Vec<Member>) -> Result<u32, NoMemory> {
        let mut added = 0u32;
        for member in members {
            if self.take(member)? {
                added = added.saturating_add(1);
            }
        }
        Ok(added)
    }

    // Counts that worlds were told, and answers whether the guess may go on.
    pub(crate) fn may_go_on(&mut self) -> bool {
        self.told = self.told.saturating_add(1);
        self.end_descents();
        self.told <= MOST_TOLD
    }

    // Counts that the present guess is mended, and answers whether it may be.
    pub(crate) fn may_mend(&mut self) -> bool {
        self.mended = self.mended.saturating_add(1);
        self.end_descents();
        self.mended <= MOST_MENDED
    }
}
