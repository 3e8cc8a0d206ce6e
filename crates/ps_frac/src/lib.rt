//! Exact fractions of 128-bit numbers: each result is exact, or the operation is refused with its
//! operands; and decimals of fractions from 0 to 1, rounded down or up, and their text.
#![tactic(auto)]

mod checked;
mod comparing;
mod decimal;
mod decimal_laws;
mod division;
mod divisors;
mod fraction;
mod limits;
mod multiples;
mod products;
mod sums;
mod text;
mod wide;

pub use checked::{signed_quotient, size_quotient, size_remainder};
pub use decimal::{Decimal, has_decimals};
pub use decimal_laws::decimals_contain_their_fraction;
pub use divisors::gcd;
pub use fraction::Fraction;
pub use limits::{MOST_DIGITS, MOST_MULTIPLE, SIZE_LIMIT, limits_have_these_numbers};
pub use multiples::lcm_upto;
pub use wide::{Op, Wide};
