// The bench: three to eight processor parts, their clocks, and the frames between them.
#![tactic(auto)]

mod clocks;
mod flight;
mod flights;
mod launches;
mod make;
mod place;
mod report;
mod seal;
mod seats;
mod sending;
mod settle;
mod state;

pub use report::Report;
pub use state::Bench;
