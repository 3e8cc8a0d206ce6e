//! The words in which contracts say what a problem's sentences entail: which distributions are
//! allowed, when bounds are inconsistent and evidence impossible, what bounds a query's
//! probability; when an answer is right, and when its certificates are valid.
//!
//! Combinations of a claim and a problem's bounds, by the multipliers of a dual; and the words in
//! which contracts say that what was found can be printed: its numbers are within the limits of a
//! report.
#![tactic(auto)]

mod claim;
mod claim_kind;
mod claim_laws;
mod combining;
mod entailment_laws;
mod reason;
mod weighted_sum;

pub use claim::Claim;
pub use claim_kind::ClaimKind;
pub use claim_laws::{
    combinations_are_sums, duals_are_faultless_or_not, duals_bound_probabilities,
    heads_are_quotients, problems_have_rows, refuted_goals_bound_combinations,
    valid_answers_are_right, valid_claims_have_no_fault,
};
pub use combining::{combination, combination_of};
pub use entailment_laws::{reached_bounds_are_tight, reached_values_are_quotients};
pub use reason::Reason;
pub use weighted_sum::Combination;
