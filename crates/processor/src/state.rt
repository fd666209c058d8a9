// Making a part, and what it has decided.
ghost use Rattle.std.specs.Prelude.{◌≡◌};
ghost use Rattle.processor.specs.Parts.{fresh_part, record_of};

use crate::part::{Bag, Decision, Part};

impl Part {
    // Processor `own`, with nothing accepted.
    pub fn new(own: u8) -> Part
        ensures { result ≡ fresh_part own }
    {
        Part {
            own,
            bags: [Bag::Empty; 8],
        }
    }

    // The recorded decision of an item, if there is one.
    pub fn decision(&self, item: u32) -> Option<Decision>
        ensures { result ≡ record_of self.now item }
    {
        if !(1..=8).contains(&item) {
            return None;
        }
        match self.bags[item as usize - 1] {
            Bag::Closed(decision) => Some(decision),
            _ => None,
        }
    }
}
