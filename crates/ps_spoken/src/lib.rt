//! An answer in words and numbers for people: each query by its own text, with its bounds as they
//! are and as decimals rounded outward, and where a part is open, what stopped it, and between which
//! numbers its bounds lie; of each bound the sentences on which it rests, and a distribution that
//! reaches it; and sentences that clash, each by its number, its line and its text, and what is left
//! without it. The same as an object of JSON, on one line, for programs.
#![tactic(auto)]

mod between;
mod bounds;
mod cause;
mod clash;
mod counts;
mod details;
mod digits;
mod exact;
mod examples;
mod json_bounds;
mod json_clash;
mod json_details;
mod listing;
mod numbers;
mod object;
mod parts;
mod queries;
mod quiet;
mod reached;
mod rests;
mod spoken;
mod strings;
mod supports;
mod unused;
mod warned;

pub use cause::{OUT_OF_TIME, out_of_time};
pub use clash::{Clash, Clashing, write_clash};
pub use details::{Details, SideDetails};
pub use digits::MORE_DIGITS;
pub use exact::write_query_exact;
pub use examples::MOST_WORLDS;
pub use numbers::{LONG_DENOMINATOR, number};
pub use object::{Told, write_object};
pub use parts::write_part;
pub use quiet::{write_query_values, write_verdict_value};
pub use reached::Reached;
pub use spoken::write_verdict;
pub use unused::write_unused;
pub use warned::Warned;
