// Printing answers and reports.
ghost use Rattle.std.specs.Prelude.{Some};
ghost use Rattle.script.specs.Printing.{decision_word, item_line, row_text};
ghost use Rattle.refusals.specs.Rows.{row_of, told_by};

use bench::Report;
use processor::Decision;
use refusals::Refusal;
use std::fmt;

// A refusal's row, and the link or flight told, if any.
#[derive(Clone, Copy, Debug, PartialEq, Eq)]
pub struct Row(pub Refusal);

impl fmt::Display for Row {
    ghost output = { λ r. Some (row_text (row_of r.0) (told_by r.0)) };

    fn fmt<W: fmt::Write>(&self, f: &mut fmt::Formatter<W>) -> fmt::Result {
        let row = self.0.row();
        match self.0.told() {
            None => writeln!(f, "{row}"),
            Some(place) => writeln!(f, "{row} {place}"),
        }
    }
}

// What a processor decided, if it did. A value has sixteen digits.
#[derive(Clone, Copy, Debug, PartialEq, Eq)]
pub struct Word(pub Option<Decision>);

impl fmt::Display for Word {
    ghost output = { λ w. Some (decision_word w.0) };

    #[tactic(auto, using(crate::proofs::Digits::sixteen_digits))]
    fn fmt<W: fmt::Write>(&self, f: &mut fmt::Formatter<W>) -> fmt::Result {
        match self.0 {
            None => write!(f, "none"),
            Some(Decision::Default) => write!(f, "default"),
            Some(Decision::Value(value)) => write!(f, "{value:016X}"),
        }
    }
}

// The line of an item.
#[derive(Clone, Copy, Debug, PartialEq, Eq)]
pub struct ItemLine<'a> {
    pub item: u32,
    pub report: &'a Report,
}

impl fmt::Display for ItemLine<'_> {
    ghost output = { λ line. Some (item_line line.item line.report.now) };

    fn fmt<W: fmt::Write>(&self, f: &mut fmt::Formatter<W>) -> fmt::Result {
        let item = self.item;
        let broadcasts = self.report.broadcasts;
        write!(f, "item {item} broadcasts {broadcasts} decisions")?;
        // By number: no clause of a report bounds n by its eight places, and past them the word is `none`.
        for q in 0..self.report.n {
            let decision = self.report.decisions.get(usize::from(q)).copied().flatten();
            write!(f, " {}", Word(decision))?;
        }
        writeln!(f)
    }
}
