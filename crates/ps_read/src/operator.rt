//! Operators that wait.
ghost use Rattle.std.specs.Prelude.{◌≡◌, ◌≤◌};
ghost use Rattle.ps_read.specs.Pending.{binding, mark_of};

use ps_problem::Mark;

/// An operator of a formula that waits for its last operand, or a `(` for its `)`.
#[derive(Clone, Copy, Debug, PartialEq, Eq)]
pub(crate) enum Operator {
    Not,
    Group,
    And,
    Or,
    Implies,
    Iff,
}

impl Operator {
    /// How tightly the operator binds, from 1 for `<->` to 5 for `!`; 0 for a `(`.
    pub(crate) fn binding(self) -> u8
        ensures { result ≡ binding self }
    {
        match self {
            Operator::Group => 0,
            Operator::Iff => 1,
            Operator::Implies => 2,
            Operator::Or => 3,
            Operator::And => 4,
            Operator::Not => 5,
        }
    }

    /// The mark of the operator. A `(` has none.
    pub(crate) fn mark(self) -> Mark
        requires operator { 1 ≤ binding self }
        ensures { result ≡ mark_of self }
    {
        match self {
            Operator::Not => Mark::Not,
            Operator::And => Mark::And,
            Operator::Or => Mark::Or,
            Operator::Implies => Mark::Implies,
            Operator::Iff => Mark::Iff,
            Operator::Group => unreachable!(),
        }
    }
}
