//! How fast a table is pivoted, and how much memory it takes. The words behind the first are a count of
//! pivots, of rows and of worlds, without which the table has 101 rows and 300 worlds; it writes a
//! checksum of the entries, and time and memory are taken from outside.
use ps_frac::Fraction;
use ps_table::{Col, Home, MOST_ROWS, Table, WideAt};
use std::alloc::Global;
use std::env;

/// How many rows the table has, where no word says so: as many as one may have.
const ROWS: u32 = MOST_ROWS as u32;

/// How many worlds it has, where no word says so.
const WORLDS: u32 = 300;

/// The most worlds that a word may ask for.
const MOST_ASKED: u32 = 1_000_000;

/// What the words ask for: how many pivots, and how many rows and worlds.
#[derive(Clone, Copy)]
struct Asked {
    pivots: u64,
    rows: u32,
    worlds: u32,
}

impl Asked {
    /// The same with the word at this place.
    fn with(mut self, place: usize, number: u64) -> Asked {
        match place {
            2 => self.pivots = number,
            3 if number <= ROWS as u64 => self.rows = number as u32,
            4 if number <= MOST_ASKED as u64 => self.worlds = number as u32,
            _ => (),
        }
        self
    }
}

/// Small numbers, drawn from a fixed sequence.
#[derive(Drop)]
struct Draw {
    state: u64,
}

impl Draw {
    /// A number from -9 to 9.
    fn next(&mut self) -> i64 {
        self.state = self
            .state
            .wrapping_mul(6364136223846793005)
            .wrapping_add(1442695040888963407);
        ((self.state >> 33) % 19) as i64 - 9
    }
}

/// The homes of the rows, of which the first is artificial.
fn homes(alloc: Global, rows: u32) -> anyhow::Result<Vec<Home>> {
    let mut list = Vec::new(alloc);
    list.push(Home::Artificial)?;
    for _ in 1..rows {
        list.push(Home::Slack)?;
    }
    Ok(list)
}

/// The entries of a world, one for each row.
fn entries(alloc: Global, rows: u32, draw: &mut Draw) -> anyhow::Result<Vec<i64>> {
    let mut list = Vec::new(alloc);
    for _ in 0..rows {
        list.push(draw.next())?;
    }
    Ok(list)
}

/// Adds the column of a world, where the entries are as many as the rows.
fn add_world(table: &mut Table, entries: &[i64]) -> bool {
    if entries.len() != table.rows() as usize || table.worlds() >= MOST_ASKED {
        return false;
    }
    table.add_world(entries).is_ok()
}

/// Makes a column basic in a row, where it is there and its entry isn't 0.
fn pivot(table: &mut Table, row: u32, col: Col) -> bool {
    let inside = match col {
        Col::Home(home) => home < table.rows(),
        Col::World(world) => 0 < world && world <= table.worlds(),
    };
    if !inside || row >= table.rows() {
        return false;
    }
    match table.entry(row, col) {
        Ok(entry) => !entry.is_zero() && table.pivot(row, col).is_ok(),
        Err(_) => false,
    }
}

/// What is kept of a sequence of entries.
fn mix(sum: u64, entry: &Fraction) -> u64 {
    let over = entry.numerator().unsigned_abs() & 0xFFFF_FFFF;
    let under = entry.denominator().unsigned_abs() & 0xFFFF_FFFF;
    let sign = if entry.is_negative() { 7 } else { 3 };
    sum.wrapping_mul(31)
        .wrapping_add(over as u64)
        .wrapping_add(under as u64)
        .wrapping_add(sign)
}

/// The same, with an entry that may be too large.
fn mix_entry(sum: u64, entry: Result<Fraction, WideAt>) -> u64 {
    match entry {
        Ok(entry) => mix(sum, &entry),
        Err(_) => sum.wrapping_mul(31),
    }
}

/// A checksum of a row's value and entries.
fn row_sum(table: &Table, row: u32, before: u64) -> u64 {
    if row >= table.rows() {
        return before;
    }
    let mut sum = mix(before, &table.value(row));
    for home in 0..table.rows() {
        sum = mix_entry(sum, table.entry(row, Col::Home(home)));
    }
    for world in 0..table.worlds() {
        sum = mix_entry(sum, table.entry(row, Col::World(world + 1)));
    }
    sum
}

/// A checksum of all entries.
fn checksum(table: &Table) -> u64 {
    let mut sum = 0u64;
    for row in 0..table.rows() {
        sum = row_sum(table, row, sum);
    }
    sum
}

/// The first pivots give the entries denominators; each further pair of pivots goes there and back.
fn pivots(table: &mut Table, count: u64) -> u64 {
    let mut made = 0u64;
    for row in 1..4 {
        if pivot(table, row, Col::World(row)) {
            made = made.wrapping_add(1);
        }
    }
    for turn in 0..count {
        let col = if turn % 2 == 0 {
            Col::World(4)
        } else {
            Col::Home(4)
        };
        if pivot(table, 4, col) {
            made = made.wrapping_add(1);
        }
    }
    made
}

/// What the words ask for.
fn read_words(rt: &HostRuntime) -> anyhow::Result<Asked> {
    let mut asked = Asked {
        pivots: 2,
        rows: ROWS,
        worlds: WORLDS,
    };
    let mut place = 0usize;
    for word in env::args(rt)? {
        if let Ok(number) = word.parse::<u64>() {
            asked = asked.with(place, number);
        }
        place = place.wrapping_add(1);
    }
    Ok(asked)
}

/// The table of the homes and the worlds.
fn table(alloc: Global, asked: Asked) -> anyhow::Result<Option<Table>> {
    let homes = homes(alloc, asked.rows)?;
    if homes.is_empty() || homes.len() > MOST_ROWS {
        return Ok(None);
    }
    let mut draw = Draw { state: 1 };
    let mut table = Table::new(alloc, &homes)?;
    for _ in 0..asked.worlds {
        let entries = entries(alloc, table.rows(), &mut draw)?;
        if !add_world(&mut table, &entries) {
            return Ok(None);
        }
    }
    Ok(Some(table))
}

/// Makes the table and its pivots, and writes the checksum.
pub fn time_table(rt: &HostRuntime) -> anyhow::Result<()> {
    let alloc = rt.alloc();
    let asked = read_words(rt)?;
    match table(alloc, asked)? {
        Some(mut table) => {
            println!(rt; "worlds {}", table.worlds())?;
            println!(rt; "pivots {}", pivots(&mut table, asked.pivots))?;
            println!(rt; "entries {}", checksum(&table))?;
        }
        None => println!(rt; "no table")?,
    }
    Ok(())
}
