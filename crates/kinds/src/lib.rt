// Kinds of value: which codes are admitted, and which two codes are the same.
// A code is eight bytes read as one number, the most significant byte first.
#![tactic(auto)]

mod kind;
mod setpoint;
mod step;

pub use kind::Kind;
pub use setpoint::Setpoint;
pub use step::Step;
