// Plans: the sizes and the agenda of a run, tested once and for all.
#![tactic(auto)]

mod asks;
mod fits;
mod make;
mod plan;

pub use plan::{Appointment, Plan, Sizes};
