// What a line of a started run prints.
ghost use Rattle.std.specs.Prelude.{Some};
ghost use Rattle.script.specs.Printing.{printed};

use crate::printing::{Row, Word};
use processor::Decision;
use refusals::Refusal;
use std::fmt;

// No Result: a dropped frame is neither granted nor refused.
#[derive(Clone, Copy, Debug, PartialEq, Eq)]
pub enum Answer {
    Done,
    Number(u32),
    Decided(Decision),
    Dropped(Refusal),
    Refused(Refusal),
}

// An answer prints as a line.
impl fmt::Display for Answer {
    ghost output = { λ answer. Some (printed answer) };

    fn fmt<W: fmt::Write>(&self, f: &mut fmt::Formatter<W>) -> fmt::Result {
        match *self {
            Answer::Done => writeln!(f, "ok"),
            Answer::Number(n) => writeln!(f, "ok {n}"),
            Answer::Decided(decision) => writeln!(f, "ok {}", Word(Some(decision))),
            Answer::Dropped(refusal) => write!(f, "drop {}", Row(refusal)),
            Answer::Refused(refusal) => write!(f, "no {}", Row(refusal)),
        }
    }
}
