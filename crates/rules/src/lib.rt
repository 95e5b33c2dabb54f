// The rules of one declaration, 6 to 15 in the order of document 01: how a parameter, a register and a variable are
// judged against the tables so far, and the entries that they get.
#![tactic(auto)]

pub mod declared;
pub mod fault;
pub mod lists;
pub mod mask;
pub mod modifiers;
pub mod names;
pub mod parameter;
pub mod register;
pub mod variable;
pub mod words;

pub use declared::Judging;
pub use fault::Fault;
