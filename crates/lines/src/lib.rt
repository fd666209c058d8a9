// Reads the lines of a run script, from bytes.
#![tactic(auto)]

mod digits;
mod forms;
mod line;
mod pieces;
mod words;

pub use digits::{byte_string, digit, number, value};
pub use forms::read;
pub use line::{KindWord, Line, SchemeWord, UnknownWord};
pub use pieces::Pieces;
