// Loading a description: a text is read and judged in one pass, and what every answer leaves in the lent tables is said
// for each.
#![tactic(auto)]

pub mod declarations;
pub mod heading;
pub mod known;
pub mod names;
pub mod verdict;
pub mod whole;

pub use names::lookup;
pub use verdict::{Counts, LONG, Refused, SHORT};
pub use whole::{is_short, load};
