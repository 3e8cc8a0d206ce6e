//! Problems: bounds on the probabilities of formulas, and queries, over atoms that have names.
#![tactic(auto)]

mod assembly;
mod bound;
mod bound_at;
mod build_error;
mod building;
mod draft;
mod draft_item;
mod excess;
mod fault;
mod laws;
mod limits;
mod mark;
mod names;
mod problem;
mod query;
mod row;
mod rows;
mod scale;
mod sentence;
mod span;
mod term;

pub use assembly::build;
pub use bound::Bound;
pub use bound_at::BoundAt;
pub use build_error::BuildError;
pub use draft::Draft;
pub use excess::Excess;
pub use laws::{bounds_are_rows, canonical_text_is_reread, numbering_keeps_meaning};
pub use limits::{
    GREATEST_SCALE, MOST_BOUNDS, MOST_DENOMINATOR, MOST_DRAFTED, MOST_NESTING, MOST_QUERIES,
    MOST_ROW_VALUE, MOST_SIZES, limits_have_these_numbers,
};
pub use mark::Mark;
pub use problem::Problem;
pub use ps_meaning::Side;
pub use query::{Queries, Query};
pub use row::{Row, given_indicator, row_value};
pub use rows::push_rows;
pub use scale::{lowest, whole_numbers_are_reread};
pub use sentence::{Linear, LinearTerms, Sentence, Sentences};
pub use term::{Signed, Term};
