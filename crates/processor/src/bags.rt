// What an arriving value or a decision does to a bag.
ghost use Rattle.std.specs.Prelude.{◌≡◌};
ghost use Rattle.processor.specs.Bags.{joins, closes};

use crate::part::{Bag, Decision};
use kinds::Kind;
use refusals::Refusal;

impl Bag {
    // A value joins as the first or the second that is not the same, or is refused by row 40, 41 or 42.
    pub fn join<K: Kind>(&mut self, kind: &K, value: u64) -> Result<(), Refusal>
        ensures { (result, self.new) ≡ joins K.Kind.same self.old value }
    {
        match *self {
            Bag::Empty => *self = Bag::One(value),
            Bag::One(a) if kind.are_same(a, value) => return Err(Refusal::Same),
            Bag::One(a) => *self = Bag::Two(a, value),
            Bag::Two(a, b) if kind.are_same(a, value) || kind.are_same(b, value) => {
                return Err(Refusal::Same)
            }
            Bag::Two(_, _) => return Err(Refusal::Full),
            Bag::Closed(_) => return Err(Refusal::Closed),
        }
        Ok(())
    }

    // Decides, and is closed with the decision.
    pub fn close(&mut self) -> Decision
        ensures { (result, self.new) ≡ closes self.old }
    {
        let decision = match *self {
            Bag::One(value) => Decision::Value(value),
            Bag::Closed(decision) => decision,
            Bag::Empty | Bag::Two(_, _) => Decision::Default,
        };
        *self = Bag::Closed(decision);
        decision
    }
}
