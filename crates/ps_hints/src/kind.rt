//! Kinds of warnings.
ghost use Rattle.std.specs.Prelude.{◌≡◌, ◌<◌, length};

/// What a warning is about.
#[derive(Clone, Copy, Debug, PartialEq, Eq)]
pub enum WarningKind {
    /// A `|` that may be meant for `given`.
    Or,
    /// An interval whose ends are turned round.
    Interval,
    /// A sentence that stands twice.
    Twice,
    /// A name that is used once and close to another.
    Name,
    /// An atom of a query that stands in no sentence.
    Unstated,
    /// A condition that no distribution gives weight.
    Condition,
}

/// All kinds of warnings.
pub const KINDS: [WarningKind; 6] = [
    WarningKind::Or,
    WarningKind::Interval,
    WarningKind::Twice,
    WarningKind::Name,
    WarningKind::Unstated,
    WarningKind::Condition,
];

impl WarningKind {
    /// The word for it.
    pub fn word(self) -> &'static str
        ensures { 0 < length result.now }
    {
        match self {
            WarningKind::Or => "or",
            WarningKind::Interval => "interval",
            WarningKind::Twice => "twice",
            WarningKind::Name => "name",
            WarningKind::Unstated => "unstated",
            WarningKind::Condition => "condition",
        }
    }
}

/// Which kinds of warnings are wanted.
#[derive(Clone, Copy, Debug, PartialEq, Eq)]
pub struct Wanted {
    /// `|` that may be meant for `given`.
    pub or: bool,
    /// Intervals whose ends are turned round.
    pub interval: bool,
    /// Sentences that stand twice.
    pub twice: bool,
    /// Names that are used once and close to another.
    pub name: bool,
    /// Atoms of queries that stand in no sentence.
    pub unstated: bool,
    /// Conditions that no distribution gives weight.
    pub condition: bool,
}

impl Wanted {
    /// All of them, or none.
    pub fn all(wanted: bool) -> Wanted {
        Wanted {
            or: wanted,
            interval: wanted,
            twice: wanted,
            name: wanted,
            unstated: wanted,
            condition: wanted,
        }
    }

    /// All of these but one kind.
    pub fn without(self, kind: WarningKind) -> Wanted {
        match kind {
            WarningKind::Or => Wanted { or: false, ..self },
            WarningKind::Interval => Wanted {
                interval: false,
                ..self
            },
            WarningKind::Twice => Wanted {
                twice: false,
                ..self
            },
            WarningKind::Name => Wanted {
                name: false,
                ..self
            },
            WarningKind::Unstated => Wanted {
                unstated: false,
                ..self
            },
            WarningKind::Condition => Wanted {
                condition: false,
                ..self
            },
        }
    }

    /// Whether warnings of a kind are wanted.
    pub fn has(self, kind: WarningKind) -> bool {
        match kind {
            WarningKind::Or => self.or,
            WarningKind::Interval => self.interval,
            WarningKind::Twice => self.twice,
            WarningKind::Name => self.name,
            WarningKind::Unstated => self.unstated,
            WarningKind::Condition => self.condition,
        }
    }
}
