//! The simplex method with column generation: runs over the bounds of a problem's kept sentences, for
//! the verdict or for a query, a phase at a time: pivots, and at rest the pricing of a world whose
//! column improves; and what a table shows at the end of a phase: the distribution of its values and
//! the dual of its multipliers, as whole multiples of the table's numbers.
#![tactic(auto)]

mod answers;
mod at_place;
mod column;
mod end;
mod first;
mod modelled;
mod multipliers;
mod one_phase;
mod phases;
mod pricing;
mod run;
mod scaled;
mod setting;
mod settling;
mod spreading;
mod table_dual;
mod weights;

pub use end::End;
pub use first::First;
pub use modelled::model_of;
pub use phases::run_phase;
pub use ps_runs::{Limits, State};
pub use run::Run;
pub use setting::Setting;
pub use table_dual::dual_of;
pub use weights::{Weights, weights_of};
