//! What is shown of an answer, and within which limits it is looked for.
use ps_guess::Limits;
use ps_hints::Wanted;

/// How an answer is shown.
#[derive(Clone, Copy, Debug, PartialEq, Eq)]
pub enum Style {
    /// In words and numbers.
    Words,
    /// The verdict in a word, and the values of each query in a line.
    Values,
    /// The same with exact values, as fractions.
    Exact,
    /// As an object of JSON, in a line.
    Json,
    /// By its report.
    Report,
}

/// What is shown of an answer, and within which limits it is looked for.
#[derive(Clone, Copy, Drop)]
pub struct Settings {
    /// The limits of the runs.
    pub limits: Limits,
    /// How many digits decimals have behind the point.
    pub digits: u32,
    /// How the answer is shown.
    pub style: Style,
    /// Whether the sentences are told on which each bound rests.
    pub tells_support: bool,
    /// Whether a distribution is told that reaches each bound.
    pub tells_examples: bool,
    /// Whether its report is written too, apart from what is shown.
    pub reports: bool,
    /// Which warnings are noted.
    pub warns: Wanted,
    /// Whether time is limited: then no further step is begun once the watch is over.
    pub is_timed: bool,
}
