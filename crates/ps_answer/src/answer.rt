//! What was found, with its certificates.
use ps_formula::World;
use ps_frac::Fraction;
use ps_io::List;
use ps_pb::{Constraint, Steps};
use ps_table::{Trace, WideAt};

/// A world and its weight.
#[derive(Drop)]
pub struct Weighted {
    /// The weight, to be divided by the total of the model.
    pub weight: i128,
    /// The truth values of the atoms.
    pub world: World,
}

/// Worlds with their weights, in order.
pub type Worlds = List<Weighted>;

/// A distribution: each world has the probability `weight/total`.
#[derive(Drop)]
pub struct Model {
    /// The sum of the weights.
    pub total: i128,
    /// The worlds that have a weight.
    pub worlds: Worlds,
}

/// A multiplier for each bound of a problem, in their order.
pub type Multipliers = List<i128>;

/// A multiplier for each bound, the number of the evidence (`head`) and of the query (`top`), and
/// the steps that refute that their combination is above 0 in some world (linear-programming
/// duality, with the refutation of a pricing problem).
#[derive(Drop)]
pub struct Dual {
    /// The number of the query.
    pub top: i128,
    /// The number of the evidence.
    pub head: i128,
    /// The multipliers of the bounds.
    pub rows: Multipliers,
    /// The steps of the refutation.
    pub steps: Steps,
}

/// Why a part is open.
#[derive(Drop)]
pub enum Cause {
    /// The pivots were used up.
    Pivots {
        limit: u64,
    },
    /// A search used up its conflicts; the steps are what it learned toward the goal.
    Conflicts {
        limit: u64,
        goal: Constraint,
        steps: Steps,
    },
    /// A number was too wide, at this place.
    Wide {
        at: WideAt,
    },
}

/// What is answered to a problem's sentences.
#[derive(Drop)]
pub enum Verdict {
    /// A distribution that meets them.
    Consistent(Model),
    /// What shows that none does.
    Inconsistent(Dual),
    /// A limit was reached, and nothing is claimed of the sentences.
    Open(Cause),
}

/// What is answered to one side of a query.
#[derive(Drop)]
pub enum SideAnswer {
    /// The tightest bound, a distribution that reaches it, and what shows that it is a bound.
    Bound {
        value: Fraction,
        model: Model,
        dual: Dual,
    },
    /// A limit was reached, and nothing is claimed of the side.
    Open(Cause),
}

/// What is answered to a query. The traces are the events of its two sides.
#[derive(Drop)]
pub enum QueryAnswer {
    /// What is answered to each side, with the events of the side's phase.
    Bounds {
        lower: SideAnswer,
        lower_trace: Trace,
        upper: SideAnswer,
        upper_trace: Trace,
    },
    /// What shows that no distribution that meets the sentences gives the evidence positive
    /// probability.
    Impossible(Dual),
    /// A limit was reached, and nothing is claimed of the query.
    Open(Cause),
}

/// What is answered to a query, and the events of its first phase.
#[derive(Drop)]
pub struct QueryPart {
    /// What is answered to the query.
    pub answer: QueryAnswer,
    /// The events of its first phase.
    pub first: Trace,
}

/// What is answered to the queries of a problem, in their order.
pub type Parts = List<QueryPart>;

/// What is answered to a problem, and the events of the verdict's run.
#[derive(Drop)]
pub struct Answer {
    /// What is answered to the problem's sentences.
    pub verdict: Verdict,
    /// The events of the verdict's run.
    pub first: Trace,
    /// What is answered to its queries.
    pub parts: Parts,
}
