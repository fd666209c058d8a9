// Deciding an item.
ghost use Rattle.std.specs.Prelude.{◌≡◌};
ghost use Rattle.plans.specs.Setups.{setup_of};
ghost use Rattle.processor.specs.Deciding.{decided};

use crate::agenda::appointment;
use crate::part::{Decision, Part};
use crate::windows::end;
use plans::Plan;
use refusals::Refusal;

impl Part {
    // The decision on an item, which stands once it is given.
    pub fn decide(&mut self, plan: &Plan, reading: u64, item: u32) -> Result<Decision, Refusal>
        ensures { (result, self.new) ≡ decided (setup_of plan.now) reading item self.old }
    {
        let appointment = appointment(plan, item, Refusal::Item)?;
        if let Some(decision) = self.decision(item) {
            return Ok(decision);
        }
        if reading < end(plan, appointment.reading) {
            return Err(Refusal::Wait);
        }
        Ok(self.bags[item as usize - 1].close())
    }
}
