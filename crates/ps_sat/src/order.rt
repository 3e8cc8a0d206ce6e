//! The order of decisions.
ghost use Rattle.std.specs.Prelude.{◌≡◌, Some, IfSome, ◌⊎◌};
ghost use Rattle.ps_pb.specs.Assignments.{place};
ghost use Rattle.ps_sat.specs.Choices.{is_open_atom, IsOpenAt, IsOpenAtom, IsDecision};

use ps_clause::ClauseForm;
use ps_io::NoMemory;
use ps_learn::Trail;
use ps_pb::{Assignment, Constraint, Lit};
use std::alloc::Global;

// What a variable of the first conflict gains.
const FIRST_GAIN: u64 = 64;

// The gain grows by one part in so many.
const GROWTH: u64 = 16;

// Where the gain passes this, all activities are scaled down.
const MOST_GAIN: u64 = 1 << 40;

// By so many bits.
const SCALE: u32 = 32;

/// Which variable to decide on next: the most active one, where the variables that took part in a
/// conflict gain activity, the more the later it was (M. W. Moskewicz and others, "Chaff", 2001).
/// It gets its last value again (K. Pipatsrisawat, A. Darwiche, 2007), at first the one that the
/// goal wants, else the one that a first assignment gives, and else false.
#[derive(Drop)]
pub(crate) struct Order {
    atoms: Vec<Lit>,
    activities: Vec<u64>,
    values: Vec<bool>,
    gain: u64,
}

impl Order {
    /// No variable is active; the values are those that make the goal's literals true, and those of
    /// the first assignment, or false, for the variables that the goal hasn't.
    pub(crate) fn new(
        alloc: Global,
        base: &ClauseForm,
        goal: &Constraint,
        first: &Assignment,
    ) -> Result<Order, NoMemory> {
        let variables = base.variables();
        let mut order = Order {
            atoms: atoms_of(alloc, base)?,
            activities: vec![in alloc; 0; variables as usize]?,
            values: first_values(alloc, first, variables)?,
            gain: FIRST_GAIN,
        };
        for term in goal.terms().as_slice() {
            order.keep_value(term.0);
        }
        Ok(order)
    }

    /// The next decision. `None` exactly where each atom has a value.
    pub(crate) fn choose(&self, base: &ClauseForm, a: &Assignment) -> Option<Lit>
        ensures { IsDecision base.now a.now result }
    {
        let atom = self.next_open(base, a)?;
        Some(Lit::of_place(atom.place(), self.value(atom.place())))
    }

    // The most active atom without a value. `None` exactly where each atom has one.
    fn next_open(&self, base: &ClauseForm, a: &Assignment) -> Option<Lit>
        ensures { IsOpenAtom base.now a.now result }
    {
        if let Some(atom) = self.most_active(base, a) {
            return Some(atom);
        }
        // None of the listed atoms: each variable is looked at.
        first_open(base, a)
    }

    // The most active of the listed atoms without a value.
    #[tactic(auto, using(crate::proofs::Atoms::open_atom, crate::proofs::Atoms::better_open))]
    fn most_active(&self, base: &ClauseForm, a: &Assignment) -> Option<Lit>
        ensures { IfSome result (λ l. IsOpenAt base.now a.now (place l)) }
    {
        let mut best = None;
        for atom in &self.atoms {
            if is_open_atom(base, a, atom.variable()) {
                best = Some(self.better(best, *atom));
            }
        }
        best
    }

    /// Raises the activities of the marked variables, those of a conflict, and the gain of the next
    /// conflict.
    pub(crate) fn raise(&mut self, marks: &[bool]) {
        for place in 0..marks.len() {
            if marks[place] && place < self.activities.len() {
                let activity = self.activities[place];
                self.activities[place] = activity.saturating_add(self.gain);
            }
        }
        self.gain = self.gain.saturating_add(self.gain / GROWTH);
        if MOST_GAIN < self.gain {
            self.scale_down();
        }
    }

    /// Keeps the values of all literals of a trail.
    pub(crate) fn keep_values(&mut self, trail: &Trail) {
        for entry in trail.entries() {
            self.keep_value(entry.lit);
        }
    }

    fn keep_value(&mut self, lit: Lit) {
        let place = lit.place();
        if place < self.values.len() {
            self.values[place] = lit.is_positive();
        }
    }

    fn scale_down(&mut self) {
        for place in 0..self.activities.len() {
            self.activities[place] >>= SCALE;
        }
        self.gain >>= SCALE;
    }

    // The more active atom; the earlier one where they are equally active.
    fn better(&self, best: Option<Lit>, atom: Lit) -> Lit
        ensures { (result ≡ atom) ⊎ (best ≡ Some result) }
    {
        match best {
            None => atom,
            Some(best) => {
                if self.activity(best) < self.activity(atom) {
                    atom
                } else {
                    best
                }
            }
        }
    }

    fn activity(&self, atom: Lit) -> u64 {
        self.activities.get(atom.place()).copied().unwrap_or(0)
    }

    fn value(&self, place: usize) -> bool {
        self.values.get(place).copied().unwrap_or(false)
    }
}

// The values of so many variables in an assignment; false where it has none.
fn first_values(alloc: Global, first: &Assignment, variables: u32) -> Result<Vec<bool>, NoMemory> {
    let mut values = Vec::with_capacity(alloc, variables as usize)?;
    for place in 0..variables {
        values.push(first.value(place + 1).unwrap_or(false))?;
    }
    Ok(values)
}

// The atoms, by rising variable.
fn atoms_of(alloc: Global, base: &ClauseForm) -> Result<Vec<Lit>, NoMemory> {
    let mut atoms = Vec::new(alloc);
    for place in 0..base.variables() {
        if base.is_atom(place + 1) {
            atoms.push(Lit::of_place(place as usize, true))?;
        }
    }
    Ok(atoms)
}

// An atom without a value. `None` exactly where each atom has one.
fn first_open(base: &ClauseForm, a: &Assignment) -> Option<Lit>
    ensures { IsOpenAtom base.now a.now result }
{
    for place in 0..base.variables() {
        if is_open_atom(base, a, place + 1) {
            return Some(Lit::of_place(place as usize, true));
        }
    }
    None
}

// Whether a variable is an atom's, and has no value.
fn is_open_atom(base: &ClauseForm, a: &Assignment, var: u32) -> bool
    ensures { result ≡ is_open_atom base.now a.now var }
{
    base.is_atom(var) && a.value(var).is_none()
}
