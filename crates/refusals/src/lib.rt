// Refusals: the rows of the table, their numbers, places and names.
#![tactic(auto)]

mod names;
mod refusal;
mod rows;

pub use names::{name_of, number_of};
pub use refusal::Refusal;
