//! The table of a basis.
ghost use Rattle.std.specs.Prelude.{◌≡◌, ◌≢◌, suc, ◌+◌, ◌<◌, ◌≤◌, length, get_or};
ghost use Rattle.std.specs.Prelude.{IfOk, IfErr, IsTrue};
ghost use Rattle.ps_meaning.specs.Rational.{zero_q};
ghost use Rattle.ps_table.specs.declared.pool.TheConstants.{MOST_WORLDS};
ghost use Rattle.ps_table.specs.declared.limits.TheConstants.{MOST_ROWS};
ghost use Rattle.ps_table.specs.Tableau.{Tableau, IsTableau, rows_of, entries_of};
ghost use Rattle.ps_table.specs.Tableau.{HasColumn, HasWorld, number_of, entry_at, entry_of};
ghost use Rattle.ps_table.specs.Tableau.{HasBasicHomes, HasUnitHomes, IsTableForHomes};
ghost use Rattle.ps_table.specs.Tableau.{IsPivot, IsAdded, KeepsSystem, ExtendsSystem};
ghost use Rattle.ps_table.specs.Places.{PivotPlaces, EntryPlaces};
ghost use Rattle.ps_table.specs.Places.{HasNarrowColumn};
ghost use Rattle.ps_table.specs.Places.{IsWideAt, IsRefusedAt, IsNarrow};
ghost use Rattle.ps_table.specs.Grids.{grid_of, IsNewColumn};
ghost use Rattle.ps_table.specs.KeptCells.{IsPivotAt};

use crate::cells::number_of as column_number;
use crate::col::Col;
use crate::entries::{Entries, entries_copy, worlds_copy};
use crate::error::TableError;
use crate::first::first_basic;
use crate::home::Home;
use crate::kept::Kept;
use crate::place::WideAt;
use ps_frac::Fraction;
use ps_io::{List, NoMemory};
use std::alloc::Global;
use std::marker::Model;

/// A table: the kinds of its homes, the entries of its worlds, the columns of the right side and of
/// the homes, and the column that is basic in each row. A world's column isn't kept.
#[derive(Drop)]
pub struct Table {
    homes: Vec<Home>,
    worlds: u32,
    entries: List<Entries>,
    pub(crate) kept: Kept,
    basic: Vec<Col>,
}

impl Model for Table {
    ghost use Rattle.ps_table.specs.Tableau.{Tableau};
    ghost use Rattle.ps_table.specs.KeptCells.{IsKeptTableau};

    ghost Value = { Tableau };

    ghost view = { λ t. record {
      kinds = t.homes.items;
      worlds = t.worlds;
      entries = t.entries;
      cells = t.kept.cells;
      basic = t.basic.items;
    } };

    ghost invariant = { λ t. IsKeptTableau (record {
      kinds = t.homes.items;
      worlds = t.worlds;
      entries = t.entries;
      cells = t.kept.cells;
      basic = t.basic.items;
    }) t.kept };
}

impl Table {
    /// The table of these homes, which are basic.
    pub fn new(alloc: Global, homes: &[Home]) -> Result<Table, NoMemory>
        requires some { 0 < length homes.now }
        requires few { length homes.now ≤ MOST_ROWS }
        ensures kinds { IfOk result (λ t. t.kinds ≡ homes.now) }
        ensures worlds { IfOk result (λ t. t.worlds ≡ 0) }
        ensures basic { IfOk result (HasBasicHomes homes.now) }
        ensures cells { IfOk result (HasUnitHomes homes.now) }
        ensures stands { IfOk result (IsTableForHomes homes.now) }
    {
        let kept = Kept::of_homes(alloc, homes.len())?;
        let basic = first_basic(alloc, homes.len())?;
        let mut kinds = Vec::new(alloc);
        kinds.extend_from_slice(homes)?;
        Ok(Table {
            homes: kinds,
            worlds: 0,
            entries: List::new(alloc),
            kept,
            basic,
        })
    }

    /// An equal table.
    pub fn copy(&self, alloc: Global) -> Result<Table, NoMemory>
        ensures { IfOk result (λ table. table ≡ self.now) }
    {
        Ok(Table {
            homes: self.homes.as_slice().to_vec(alloc)?,
            worlds: self.worlds,
            entries: worlds_copy(alloc, self.entries.as_slice())?,
            kept: self.kept.copy()?,
            basic: self.basic.as_slice().to_vec(alloc)?,
        })
    }

    /// How many rows there are.
    pub fn rows(&self) -> u32
        ensures value { result ≡ rows_of self.now }
        ensures some { 0 < result }
        ensures few { result ≤ MOST_ROWS }
        ensures tableau { IsTableau self.now }
    {
        self.homes.len() as u32
    }

    /// How many worlds have a column.
    pub fn worlds(&self) -> u32
        ensures value { result ≡ self.now.worlds }
    {
        self.worlds
    }

    /// The kind of a row's home.
    pub fn home(&self, row: u32) -> Home
        requires { row < rows_of self.now }
        ensures value { result ≡ get_or self.now.kinds row Home.Slack }
    {
        self.homes[row as usize]
    }

    /// The column that is basic in a row.
    pub fn basic(&self, row: u32) -> Col
        requires { row < rows_of self.now }
        ensures value { result ≡ get_or self.now.basic row (Col.Home 0) }
        ensures inside { HasColumn self.now result }
    {
        self.basic[row as usize]
    }

    /// The entry of the right side in a row.
    pub fn value(&self, row: u32) -> Fraction
        requires { row < rows_of self.now }
        ensures value { result ≡ entry_at self.now row 0 }
    {
        self.kept.entry(row as usize, 0)
    }

    /// The entry of a home in a row.
    pub(crate) fn home_entry(&self, row: u32, home: u32) -> Fraction
        requires row { row < rows_of self.now }
        requires home { home < rows_of self.now }
        ensures value { result ≡ entry_at self.now row (suc home) }
    {
        self.kept.entry(row as usize, 1 + home as usize)
    }

    /// Whether the entry of a home in a row is 0.
    pub(crate) fn has_zero(&self, row: u32, home: u32) -> bool
        requires row { row < rows_of self.now }
        requires home { home < rows_of self.now }
        ensures zero { IsTrue result → entry_at self.now row (suc home) ≡ zero_q }
    {
        self.kept.is_zero(row as usize, 1 + home as usize)
    }

    /// The entries of a world.
    pub(crate) fn world(&self, number: u32) -> &[i64]
        requires { HasWorld self.now number }
        ensures entries { result.now ≡ entries_of self.now number }
        ensures column { IsNewColumn (grid_of self.now) result.now }
    {
        self.entries.as_slice()[number as usize - 1].as_slice()
    }

    /// The entry of a world in a row.
    fn world_entry(&self, row: u32, number: u32) -> Result<Fraction, WideAt>
        requires row { row < rows_of self.now }
        requires world { HasWorld self.now number }
        ensures value { IfOk result (λ r. r ≡ entry_of self.now row (Col.World number)) }
        ensures narrow { IfOk result (λ _. IsNarrow (EntryPlaces self.now row (Col.World number))) }
        ensures refused { IfErr result (IsWideAt (EntryPlaces self.now row (Col.World number))) }
    {
        self.kept
            .combined_cell(number, self.world(number), row as usize)
    }

    /// The entry of a column in a row. A world's is what the homes times its entries come to.
    pub fn entry(&self, row: u32, col: Col) -> Result<Fraction, WideAt>
        requires row { row < rows_of self.now }
        requires col { HasColumn self.now col }
        ensures value { IfOk result (λ r. r ≡ entry_of self.now row col) }
        ensures narrow { IfOk result (λ _. IsNarrow (EntryPlaces self.now row col)) }
        ensures refused { IfErr result (IsWideAt (EntryPlaces self.now row col)) }
    {
        match col {
            Col::Home(home) => Ok(self.home_entry(row, home)),
            Col::World(number) => self.world_entry(row, number),
        }
    }

    /// The number of a column, where the right side is 0.
    pub fn number(&self, col: Col) -> u64
        requires { HasColumn self.now col }
        ensures value { result ≡ number_of self.now col }
    {
        column_number(self.homes.len(), col) as u64
    }

    /// Adds a world with these entries, and answers its number.
    pub fn add_world(&mut self, entries: &[i64]) -> Result<u32, NoMemory>
        requires count { length entries.now ≡ rows_of self.old }
        requires room { self.old.worlds < MOST_WORLDS }
        ensures number { IfOk result (λ n. n ≡ self.old.worlds + 1) }
        ensures added { IfOk result (λ _. IsAdded entries.now self.old self.new) }
        ensures stands { IfOk result (λ _. ExtendsSystem entries.now self.old self.new) }
        ensures same { IfErr result (λ _. self.new ≡ self.old) }
    {
        let made = entries_copy(self.kept.alloc(), entries)?;
        self.entries.push(made)?;
        self.worlds += 1;
        Ok(self.worlds)
    }

    /// The cells after a pivot in a row and a home.
    fn after_home(&self, row: u32, home: u32) -> Result<Kept, TableError>
        requires row { row < rows_of self.now }
        requires home { home < rows_of self.now }
        requires pivot { entry_at self.now row (suc home) ≢ zero_q }
        ensures pivoted { IfOk result (IsPivotAt self.now row (Col.Home home)) }
        ensures refused { IfErr result
            (IsRefusedAt (PivotPlaces self.now row (Col.Home home))) }
    {
        self.kept.after_home(row as usize, 1 + home as usize)
    }

    /// The cells after a pivot in a row and a world.
    fn after_world(&self, row: u32, number: u32) -> Result<Kept, TableError>
        requires row { row < rows_of self.now }
        requires world { HasWorld self.now number }
        requires pivot { entry_of self.now row (Col.World number) ≢ zero_q }
        ensures pivoted { IfOk result (IsPivotAt self.now row (Col.World number)) }
        ensures column { IfOk result (λ _. HasNarrowColumn self.now (Col.World number)) }
        ensures refused { IfErr result
            (IsRefusedAt (PivotPlaces self.now row (Col.World number))) }
    {
        self.kept
            .after_world(row as usize, number, self.world(number))
    }

    /// The cells after a pivot in a row and a column.
    fn after_pivot(&self, row: u32, col: Col) -> Result<Kept, TableError>
        requires row { row < rows_of self.now }
        requires col { HasColumn self.now col }
        requires pivot { entry_of self.now row col ≢ zero_q }
        ensures pivoted { IfOk result (IsPivotAt self.now row col) }
        ensures column { IfOk result (λ _. HasNarrowColumn self.now col) }
        ensures refused { IfErr result (IsRefusedAt (PivotPlaces self.now row col)) }
    {
        match col {
            Col::Home(home) => self.after_home(row, home),
            Col::World(number) => self.after_world(row, number),
        }
    }

    /// Makes column `col` basic in row `row`.
    pub fn pivot(&mut self, row: u32, col: Col) -> Result<(), TableError>
        requires row { row < rows_of self.old }
        requires col { HasColumn self.old col }
        requires pivot { entry_of self.old row col ≢ zero_q }
        ensures pivot { IfOk result (λ _. IsPivot row col self.old self.new) }
        ensures stands { IfOk result (λ _. KeepsSystem self.old self.new) }
        ensures narrow { IfOk result (λ _. IsNarrow (PivotPlaces self.old row col)) }
        ensures refused { IfErr result (IsRefusedAt (PivotPlaces self.old row col)) }
        ensures same { IfErr result (λ _. self.new ≡ self.old) }
    {
        let made = self.after_pivot(row, col)?;
        self.kept = made;
        self.basic[row as usize] = col;
        Ok(())
    }
}
