//! What is beside an answer: the clock, where time is limited, and standard error.
ghost use Rattle.std.specs.Prelude.{◌≡◌};

use crate::number::number_within;
use crate::pieces::Pieces;
use crate::progress::{figures_of, words_of};
use ps_ask::{ClaimKind, Company, Progress, Sought, Watch, Work};
use std::env;
use std::io::IsTerminal;
use std::time::{Duration, Instant};

/// The columns of a terminal that doesn't tell them.
const USUAL_COLUMNS: usize = 80;

/// The most columns that are taken for those of a terminal.
const MOST_COLUMNS: u64 = 1000;

// The columns of the terminal, as the environment tells them.
fn columns_told(rt: &HostRuntime) -> usize {
    let Ok(word) = env::var(rt, "COLUMNS") else {
        return USUAL_COLUMNS;
    };
    match number_within(word.as_str(), 1, MOST_COLUMNS) {
        Some(columns) => columns as usize,
        None => USUAL_COLUMNS,
    }
}

// Whether the terminal can move its cursor back, as far as the environment tells.
fn moves_cursor(rt: &HostRuntime) -> bool {
    match env::var(rt, "TERM") {
        Ok(word) => word.as_str() != "dumb",
        Err(_) => true,
    }
}

// The front of a line in ASCII that has so many columns at most.
fn front_of(line: &str, columns: usize) -> &str {
    line.get(..columns).unwrap_or(line)
}

/// What is beside the answer to a problem.
#[derive(Drop)]
pub struct Beside<'a> {
    rt: &'a HostRuntime,
    // How long the answer may take, and when it was first asked whether that is over. No clock is
    // read without a limit.
    limit: Option<Duration>,
    start: Option<Instant>,
    is_over: bool,
    // Whether it was said that time is over, or that a piece of work has no room.
    has_refused: bool,
    // How long pieces of work took that don't stop on their way.
    pieces: Pieces,
    // The columns of the line that tells how far the answer is; none where it isn't told.
    columns: Option<usize>,
    // How many of them were told.
    told: usize,
    sought: Sought,
}

impl<'a> Beside<'a> {
    /// Beside an answer that may take so many seconds, where that is limited, and whose line of progress
    /// is told where that is wanted and standard error is a terminal that can. The seconds are counted from
    /// when it is first asked whether they are over: an answer asks once its problem is read. A clock
    /// that can't be read ends it at once.
    pub fn new(rt: &'a HostRuntime, seconds: Option<u64>, tells: bool) -> Beside<'a> {
        let is_line_told = tells && rt.stderr().is_terminal() && moves_cursor(rt);
        Beside {
            rt,
            limit: seconds.map(Duration::from_secs),
            start: None,
            is_over: false,
            has_refused: false,
            pieces: Pieces::new(rt.alloc()),
            columns: if is_line_told {
                Some(columns_told(rt))
            } else {
                None
            },
            told: 0,
            sought: Sought::Verdict,
        }
    }

    // How much time went by since this was first asked; none where the clock can't be read.
    fn time_gone(&mut self) -> Option<Duration>
        ensures { self.new.has_refused ≡ self.old.has_refused }
    {
        let Some(start) = self.start else {
            self.start = Instant::now(self.rt).ok();
            return self.start.map(|_| Duration::from_secs(0));
        };
        start.elapsed(self.rt).ok()
    }

    // How much of the time is left; none where it is over.
    fn left_of(&mut self, limit: Duration) -> Option<Duration>
        ensures { self.new.has_refused ≡ self.old.has_refused }
    {
        let elapsed = self.time_gone()?;
        self.pieces.end_at(elapsed);
        let left = limit.checked_sub(elapsed)?;
        if left.is_zero() { None } else { Some(left) }
    }

    // Begins a piece of work where the time that is left is likely to do. Whether it is.
    fn begin(&mut self, work: Work, turn: u32) -> bool
        ensures { self.new.has_refused ≡ self.old.has_refused }
    {
        let Some(limit) = self.limit else {
            return true;
        };
        let Some(left) = self.left_of(limit) else {
            return false;
        };
        if !self.pieces.has_room(work, turn, left) {
            return false;
        }
        self.pieces.begin(work, limit.saturating_sub(left));
        true
    }

    // Puts blanks over the line that is shown.
    fn wipe(&mut self)
        ensures { self.new.has_refused ≡ self.old.has_refused }
    {
        if self.told > 0 {
            if let Ok(blanks) = " ".repeat(self.rt.alloc(), self.told) {
                let _ = eprint!(self.rt; "\r{blanks}\r");
            }
            self.told = 0;
        }
    }

    // Writes the line that tells what is sought, and how far it is, as much of it as has room. The
    // cursor goes back to its start, so that what is written next stands over it.
    fn write_line(&mut self, figures: &str)
        ensures { self.new.has_refused ≡ self.old.has_refused }
    {
        let Some(columns) = self.columns else {
            return;
        };
        self.wipe();
        let Ok(words) = words_of(self.rt.alloc(), self.sought) else {
            return;
        };
        let Ok(line) = format!(in self.rt.alloc(); "{words}{figures}") else {
            return;
        };
        let shown = front_of(line.as_str(), columns.saturating_sub(1));
        let _ = eprint!(self.rt; "{shown}\r");
        self.told = shown.len();
    }
}

impl<'a> Watch for Beside<'a> {
    ghost has_refused = { λ b. b.has_refused };

    fn is_over(&mut self) -> bool {
        if let Some(limit) = self.limit {
            if !self.is_over {
                self.is_over = self.left_of(limit).is_none();
            }
        }
        self.has_refused = self.has_refused || self.is_over;
        self.is_over
    }

    fn has_room(&mut self, work: Work, turn: u32) -> bool {
        let has_room = self.begin(work, turn);
        self.has_refused = self.has_refused || !has_room;
        has_room
    }

    fn tell(&mut self, kind: ClaimKind, progress: Progress) {
        if let Ok(figures) = figures_of(self.rt.alloc(), kind, progress) {
            self.write_line(&figures);
        }
    }
}

impl<'a> Company for Beside<'a> {
    fn note(&mut self, text: &[u8]) {
        self.clear();
        if let Ok(text) = str::from_utf8(text) {
            let _ = eprint!(self.rt; "{text}");
        }
    }

    fn turn_to(&mut self, sought: Sought) {
        if let Some(limit) = self.limit {
            // A piece that is under way has ended.
            let _ = self.left_of(limit);
            self.pieces.turn_to(sought);
        }
        self.sought = sought;
        self.write_line("");
    }

    fn clear(&mut self) {
        self.wipe();
    }
}
