//! Whole numbers of up to 128 bits: rounding, roots, common divisors, the order of fractions, exact sums,
//! and the values of decimal texts.
#![tactic(auto)]

mod decimal;
mod divisor;
mod fraction;
mod magnitude;
mod root;
mod round;
mod wide;

pub use decimal::{Decimal, NumberFault};
pub use divisor::gcd;
pub use fraction::compare_fractions;
pub use root::whole_root;
pub use round::round_div;
pub use wide::Wide;
