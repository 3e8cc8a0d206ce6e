//! The program of a face.

use crate::about::About;
use crate::limits::{
    FORCED_TIGHT, LARGEST_MARGIN, LEAST_MARGIN, LEAST_VALUE, MOST_PIVOTS, MOST_REPAIRS, OFF_FACE,
    WIDE_MARGIN,
};
use ps_float_pricing::{FloatGoal, Goal, Member, Relaxed};
use ps_io::NoMemory;
use ps_simplex_float::{Column, Ending, MOST_ROWS, Phase, RowKind, Simplex};
use std::alloc::Global;

/// The program of a face: the worlds on which a combination is 0 get values at which the tight rows are
/// exact, and all others keep as large a margin as they can, up to a hundredth of the evidence. Its rows
/// are those of the engine's program, and that of the margin behind them.
#[derive(Drop)]
pub(crate) struct Face {
    alloc: Global,
    simplex: Simplex,
    /// The place in the pool of each added column; the margin has none.
    places: Vec<Option<usize>>,
    /// Whether each row is tight, from that of the evidence on.
    is_tight: Vec<bool>,
    given: Option<u32>,
    has_margin: bool,
}

/// A world with a value.
#[derive(Clone, Copy, Debug)]
pub(crate) struct Valued {
    /// Its place in the pool.
    pub(crate) place: usize,
    pub(crate) value: f64,
}

// The kinds of the rows, that of the margin last.
fn kinds_of(alloc: Global, is_tight: &[bool]) -> Result<Vec<RowKind>, NoMemory> {
    let mut kinds = Vec::new(alloc);
    for is_tight in is_tight {
        kinds.push(if *is_tight {
            RowKind::Equal
        } else {
            RowKind::AtMost
        })?;
    }
    kinds.push(RowKind::AtMost)?;
    Ok(kinds)
}

// The column of the margin, which each row has that isn't tight.
fn margin_column(alloc: Global, is_tight: &[bool]) -> Result<Vec<f64>, NoMemory> {
    let mut column = Vec::new(alloc);
    for is_tight in is_tight {
        column.push(if *is_tight { 0.0 } else { 1.0 })?;
    }
    column.push(1.0)?;
    Ok(column)
}

// Which places are those of basic columns.
fn basic_places(alloc: Global, basis: &[Column], places: usize) -> Result<Vec<bool>, NoMemory> {
    let mut is_basic = vec![in alloc; false; places]?;
    for column in basis {
        if let Column::Added(place) = *column {
            if let Some(it) = is_basic.get_mut(place) {
                *it = true;
            }
        }
    }
    Ok(is_basic)
}

impl Face {
    /// The program over the worlds of the pool that are on the face, and those of a basis, where it starts.
    /// None where it can't.
    pub(crate) fn new(
        alloc: Global,
        about: About<'_>,
        basis: &[Column],
        goal: &Goal,
        is_tight: &[bool],
    ) -> Result<Option<Face>, NoMemory> {
        let kinds = kinds_of(alloc, is_tight)?;
        if kinds.is_empty() || kinds.len() > MOST_ROWS {
            return Ok(None);
        }
        let mut face = Face {
            alloc,
            simplex: Simplex::new(alloc, &kinds, &[1.0])?,
            places: Vec::new(alloc),
            is_tight: is_tight.to_vec(alloc)?,
            given: about.given,
            has_margin: !is_tight.iter().all(|it| *it),
        };
        face.simplex.set_phase(Phase::Two);
        face.add_all(about, basis, goal)?;
        if face.has_margin {
            let column = margin_column(alloc, is_tight)?;
            face.simplex.add_column(&column, -1.0)?;
            face.places.push(None)?;
        }
        let is_started = face.start(basis, about.pool.members().len())?;
        Ok(if is_started { Some(face) } else { None })
    }

    // Adds the columns of the worlds that are on the face, and of those of the basis.
    fn add_all(&mut self, about: About<'_>, basis: &[Column], goal: &Goal) -> Result<(), NoMemory> {
        let members = about.pool.members();
        let is_basic = basic_places(self.alloc, basis, members.len())?;
        for (place, (member, is_basic)) in members.iter().zip(&is_basic).enumerate() {
            let is_on_face = goal.value(&member.truth) == 0;
            if is_on_face || *is_basic {
                let cost = if is_on_face { 0.0 } else { OFF_FACE };
                self.add(about.relaxed, place, member, cost)?;
            }
        }
        Ok(())
    }

    // Adds the column of a world.
    fn add(
        &mut self,
        relaxed: &Relaxed,
        place: usize,
        member: &Member,
        cost: f64,
    ) -> Result<(), NoMemory> {
        let mut column = relaxed.column(self.alloc, self.given, &member.truth)?;
        let evidence = column.first().copied().unwrap_or(0.0);
        column.push(-LARGEST_MARGIN * evidence)?;
        self.simplex.add_column(&column, cost)?;
        self.places.push(Some(place))?;
        Ok(())
    }

    // Starts at the columns of a basis of the engine's program, of whose pool there are so many places.
    fn start(&mut self, basis: &[Column], places: usize) -> Result<bool, NoMemory> {
        let mut numbers = vec![in self.alloc; usize::MAX; places]?;
        for (number, place) in self.places.iter().enumerate() {
            if let Some(place) = *place {
                if let Some(it) = numbers.get_mut(place) {
                    *it = number;
                }
            }
        }
        let mut columns = Vec::new(self.alloc);
        for column in basis {
            columns.push(self.own_column(*column, &numbers))?;
        }
        columns.push(Column::Slack(self.is_tight.len()))?;
        Ok(self.simplex.start_at(&columns))
    }

    // The column for one of the engine's program: a tight row has no slack.
    fn own_column(&self, column: Column, numbers: &[usize]) -> Column {
        match column {
            Column::Added(place) => {
                Column::Added(numbers.get(place).copied().unwrap_or(usize::MAX))
            }
            Column::Slack(row) if self.is_tight.get(row).copied().unwrap_or(false) => {
                Column::Artificial(row)
            }
            other => other,
        }
    }

    /// Adds a world of the face, by its place in the pool.
    pub(crate) fn add_on_face(
        &mut self,
        relaxed: &Relaxed,
        place: usize,
        member: &Member,
    ) -> Result<(), NoMemory> {
        self.add(relaxed, place, member, 0.0)
    }

    /// Goes to the largest margin over the worlds that are known.
    pub(crate) fn minimise(&mut self) -> bool {
        self.simplex.minimise(MOST_PIVOTS) == Ending::Optimal
    }

    /// Goes back to the true right side.
    pub(crate) fn clean(&mut self) -> bool {
        self.simplex.clean(MOST_REPAIRS) == Ending::Optimal
    }

    /// Whether the margin is large, or no row has one.
    pub(crate) fn is_wide(&self) -> bool {
        !self.has_margin || self.simplex.objective() < -WIDE_MARGIN
    }

    /// Writes by how much a world of the face would raise the margin.
    pub(crate) fn write_gain(&mut self, relaxed: &Relaxed, gain: &mut FloatGoal) {
        self.simplex.find_duals();
        let duals = self.simplex.duals();
        let head = duals.first().copied().unwrap_or(0.0);
        let margin = duals.last().copied().unwrap_or(0.0);
        relaxed.write_free_gain(self.given, head - LARGEST_MARGIN * margin, duals, gain);
    }

    /// Where there is no margin, makes the rows tight that the face forces to be so, and answers whether
    /// there are any. The rows are by their numbers in the engine's program.
    pub(crate) fn tighten(&mut self, is_tight: &mut [bool]) -> bool {
        if !self.has_margin || self.simplex.objective() < -LEAST_MARGIN {
            return false;
        }
        self.simplex.find_duals();
        let mut has_more = false;
        for (it, dual) in is_tight.iter_mut().zip(self.simplex.duals()) {
            if !*it && dual.abs() > FORCED_TIGHT {
                *it = true;
                has_more = true;
            }
        }
        has_more
    }

    /// The worlds on which a combination is 0, with their values, those of about 0 left out.
    pub(crate) fn values(&self, about: About<'_>, goal: &Goal) -> Result<Vec<Valued>, NoMemory> {
        let mut found = Vec::new(self.alloc);
        for (column, value) in self.simplex.basis().iter().zip(self.simplex.values()) {
            if let Some(place) = self.place_of(*column) {
                if *value > LEAST_VALUE && goal.value(about.pool.truth(place)) == 0 {
                    found.push(Valued {
                        place,
                        value: *value,
                    })?;
                }
            }
        }
        Ok(found)
    }

    // The place in the pool of a column's world.
    fn place_of(&self, column: Column) -> Option<usize> {
        match column {
            Column::Added(number) => self.places.get(number).copied()?,
            Column::Slack(_) | Column::Artificial(_) | Column::NegativeArtificial(_) => None,
        }
    }
}
