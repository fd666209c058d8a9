// Opening an item.
ghost use Rattle.std.specs.Prelude.{◌≡◌};
ghost use Rattle.plans.specs.Setups.{setup_of};
ghost use Rattle.processor.specs.Opening.{opened};

use crate::agenda::appointment;
use crate::owed::Owed;
use crate::part::{Bag, Part};
use kinds::Kind;
use plans::Plan;
use refusals::Refusal;

impl Part {
    // Opens the own item with a value at its reading, and answers the broadcast that is then owed.
    pub fn open<K: Kind>(
        &mut self,
        plan: &Plan,
        kind: &K,
        reading: u64,
        item: u32,
        value: u64,
    ) -> Result<Owed, Refusal>
        ensures { (result, self.new) ≡ opened K.Kind.admitted (setup_of plan.now) reading item value self.old }
    {
        let appointment = appointment(plan, item, Refusal::Item)?;
        if reading != u64::from(appointment.reading) {
            return Err(Refusal::Moment);
        }
        if u32::from(self.own) != appointment.sender {
            return Err(Refusal::Sender);
        }
        let Bag::Empty = self.bags[item as usize - 1] else {
            return Err(Refusal::Opened);
        };
        if !kind.admits(value) {
            return Err(Refusal::Value);
        }
        self.bags[item as usize - 1] = Bag::One(value);
        Ok(Owed::first(item as u8, value, self.own))
    }
}
