// What can be told of a refusal besides its number, and of an accepted description besides its counts. Every answer is
// that of a definition in specs/.
#![tactic(auto)]

pub mod broken;
pub mod entries;
pub mod expected;
pub mod holders;
pub mod judged;
pub mod places;
pub mod ranges;
pub mod rows;
pub mod search;
