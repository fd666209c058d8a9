// The part that a controller runs.
#![tactic(auto)]

mod agenda;
mod bags;
mod broadcasts;
mod chains;
mod controller;
mod decide;
mod examples;
mod naming;
mod open;
mod owed;
mod part;
mod receive;
mod relaying;
mod state;
mod windows;

pub use controller::Processor;
pub use examples::examples_stand;
pub use owed::Owed;
pub use part::{Bag, Decision, Part};
pub use relaying::{LONGEST_FRAME, Unsent, forgo, relay};
pub use windows::end;
