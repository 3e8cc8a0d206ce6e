//! Pricing for a float program: what a problem asks of a distribution, as rows and as certainties
//! that each world must meet; worlds whose column improves the program are sought by a search over
//! the problem's clause form and by local search, and of few atoms among all worlds. Nothing is
//! claimed of the numbers, nor of what is found.
#![tactic(auto)]

mod aim;
mod climbing;
mod effort;
mod face_goal;
mod float_goal;
mod goal;
mod limits;
mod multipliers;
mod pool;
mod pricer;
mod relaxed;
mod row;
mod scaled;
mod search;
mod sorting;
mod truth;
mod wishes;

pub use aim::Aim;
pub use float_goal::FloatGoal;
pub use goal::Goal;
pub use multipliers::Multipliers;
pub use pool::{Member, WorldPool};
pub use pricer::{FloatPricer, Priced};
pub use relaxed::Relaxed;
pub use row::{Certainty, Row, RowTerm};
pub use truth::{is_given, is_true};
