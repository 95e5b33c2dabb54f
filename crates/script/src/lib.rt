// The lines of a script, their words, and the numbers among these. What each answer must be stands in specs/.
#![tactic(auto)]

mod numbers;
mod patterns;
mod words;

pub use numbers::{number_of, value_of};
pub use patterns::{digits_of, pattern_of};
pub use words::{is, line_end, rest, word};
