//! Hard and soft clauses.
use ps_io::List;
use ps_pb::Lits;

/// Clauses, in order.
pub type ClauseList = List<Lits>;

/// Clauses with their weights, in order.
pub type SoftList = List<(i128, Lits)>;

/// Hard clauses, each of which is to have a true literal, and soft ones, each of which costs its
/// weight where it has none.
#[derive(Drop)]
pub struct WcnfText {
    /// The greatest variable that is named; 0 where none is.
    pub variables: u32,
    /// The hard clauses.
    pub hard: ClauseList,
    /// The soft clauses, with their weights.
    pub soft: SoftList,
}
