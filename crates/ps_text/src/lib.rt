//! The problem text: its tokens, its grammar, what is expected and what is refused in it, and what
//! it states and asks.
#![tactic(auto)]

mod kind;
mod laws;
mod limits;
mod part;
mod symbol;
mod version;

pub use kind::{ReadKind, What};
pub use laws::{
    a_front_excludes_a_refusal, bytes_are_cut, bytes_have_one_answer,
    canonical_text_means_its_items, derivations_take_tokens, expected_tokens_are_derived,
    one_refusal_at_most, one_text_stands_at_the_front, texts_have_one_meaning,
    tokens_are_the_versions, what_is_read_is_lawful,
};
pub use limits::{
    GREATEST_DENOMINATOR, GREATEST_NUMBER, LONGEST_WORD, MOST_DECIMALS, MOST_OPEN, MOST_TERMS,
    limits_have_these_numbers,
};
pub use part::{Opening, Part};
pub use symbol::Symbol;
pub use version::Version;
