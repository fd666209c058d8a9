// Plays a run script: its text in, the transcript out.
#![tactic(auto)]

mod answer;
mod calls;
mod player;
mod printing;
mod setting;
mod settings;

pub use player::play;
