// What the first lines of a script set.
use lines::{KindWord, SchemeWord};
use plans::{Appointment, Sizes};

// The sizes, once they are set, and the items so far.
#[derive(Drop)]
pub struct Setting {
    pub sizes: Option<Sizes>,
    pub agenda: Vec<Appointment>,
}

// What a line does before the start.
// Three cases by name: as a Result of an Option they would stand within the Result of memory.
#[derive(Clone, Copy, Debug, PartialEq, Eq)]
pub enum Heard {
    Kept,
    OutOfOrder,
    Start(Sizes, KindWord, SchemeWord),
}
