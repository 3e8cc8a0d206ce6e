//! How long pieces of work took that don't stop on their way.
use ps_ask::{Sought, Work};
use std::alloc::Global;
use std::time::Duration;

/// The longest piece of the turn that is under way, and of the one before it.
#[derive(Clone, Copy, PartialEq, Debug, Drop)]
struct Longest {
    turn: u32,
    of_turn: Duration,
    of_turn_before: Duration,
}

impl Longest {
    // None were begun.
    fn new() -> Longest {
        Longest {
            turn: 0,
            of_turn: Duration::from_secs(0),
            of_turn_before: Duration::from_secs(0),
        }
    }

    // From now on pieces are of this turn. A turn in which none was begun is passed by; turns that begin
    // anew are of other work.
    fn turn_to(&mut self, turn: u32) {
        if turn < self.turn {
            *self = Longest::new();
        }
        if turn > self.turn && !self.of_turn.is_zero() {
            self.of_turn_before = self.of_turn;
            self.of_turn = Duration::from_secs(0);
        }
        self.turn = turn;
    }

    // Whether a piece is likely to end in the time that is left.
    fn has_room(&self, left: Duration) -> bool {
        self.of_turn <= left && self.of_turn_before.saturating_mul(3) <= left
    }
}

/// The longest pieces of the turns of one thing that is sought.
#[derive(Clone, Copy, PartialEq, Debug, Drop)]
struct Paces {
    guesses: Longest,
    runs: Longest,
}

impl Paces {
    // None were begun.
    fn new() -> Paces {
        Paces {
            guesses: Longest::new(),
            runs: Longest::new(),
        }
    }

    // The longest of such pieces.
    fn of(&self, work: Work) -> Longest {
        match work {
            Work::Guess => self.guesses,
            Work::Run => self.runs,
        }
    }

    // From now on these are the longest of such pieces.
    fn put(&mut self, work: Work, longest: Longest) {
        match work {
            Work::Guess => self.guesses = longest,
            Work::Run => self.runs = longest,
        }
    }
}

/// How long pieces of work took that don't stop on their way, for each query apart.
#[derive(Drop)]
pub struct Pieces {
    // Those of each query, in the order of the queries, and those of all else.
    queries: Vec<Paces>,
    others: Paces,
    // The place of the query that is sought, where one is.
    place: Option<usize>,
    // What is under way, and when it began.
    begun: Option<(Work, Duration)>,
}

impl Pieces {
    /// None were begun.
    pub fn new(alloc: Global) -> Pieces {
        Pieces {
            queries: Vec::new(alloc),
            others: Paces::new(),
            place: None,
            begun: None,
        }
    }

    // The place of a query, for which there is room from now on; none where memory is lacking.
    fn place_of(&mut self, number: usize) -> Option<usize> {
        let place = number.checked_sub(1)?;
        if place == self.queries.len() {
            self.queries.push(Paces::new()).ok()?;
        }
        Some(place)
    }

    /// From now on this is sought.
    pub fn turn_to(&mut self, sought: Sought) {
        self.place = match sought {
            Sought::Query { number, .. } => self.place_of(number),
            Sought::Verdict | Sought::Clash | Sought::Conditions => None,
        };
    }

    // The longest pieces of what is sought.
    fn paces(&self) -> Paces {
        match self.place {
            Some(place) if place < self.queries.len() => self.queries[place],
            _ => self.others,
        }
    }

    // From now on these are the longest pieces of what is sought.
    fn put(&mut self, paces: Paces) {
        match self.place {
            Some(place) if place < self.queries.len() => self.queries[place] = paces,
            _ => self.others = paces,
        }
    }

    /// The piece that is under way, if there is one, has ended by this time.
    pub fn end_at(&mut self, now: Duration) {
        if let Some((work, begun)) = self.begun {
            self.begun = None;
            let mut paces = self.paces();
            let mut longest = paces.of(work);
            longest.of_turn = longest.of_turn.max(now.saturating_sub(begun));
            paces.put(work, longest);
            self.put(paces);
        }
    }

    /// Whether a piece of this turn is likely to end in the time that is left: what the longest one of
    /// this turn took, and three times what the longest one of the turn before did.
    pub fn has_room(&mut self, work: Work, turn: u32, left: Duration) -> bool {
        let mut paces = self.paces();
        let mut longest = paces.of(work);
        longest.turn_to(turn);
        paces.put(work, longest);
        self.put(paces);
        longest.has_room(left)
    }

    /// Such a piece begins now.
    pub fn begin(&mut self, work: Work, now: Duration) {
        self.begun = Some((work, now));
    }
}
