//! The parts of an answer's text.

/// A part of an answer's text that is due.
#[derive(Clone, Copy, Debug, PartialEq, Eq, Drop)]
pub enum MaxPart {
    /// The first line.
    Head,
    /// An optimum, that there is none, or what is open.
    Answer,
    /// The values of the variables.
    Values,
    /// How many steps follow.
    Log,
    /// A step.
    Step,
    /// The goal of a search.
    Goal,
    /// The best assignment so far, or that there is none.
    Best,
    /// The last line.
    End,
}
