// What a plan is asked.
ghost use Rattle.std.specs.Prelude.{◌≡◌, ◌&&◌, length, nat_le};
ghost use Rattle.plans.specs.Readings.{latest};
ghost use Rattle.plans.specs.Setups.{setup_of};

use crate::plan::{Appointment, Plan};

impl Plan {
    // The items, in order.
    pub fn agenda(&self) -> &[Appointment]
        ensures { result.now ≡ (setup_of self.now).agenda }
    {
        &self.items[..self.count]
    }

    // The largest reading of the agenda.
    pub fn latest(&self) -> u32
        ensures { result ≡ latest (setup_of self.now).agenda }
    {
        self.agenda()
            .iter()
            .fold(0, |latest, item| latest.max(item.reading))
    }

    // Whether a processor has this number.
    pub fn has_processor(&self, p: u32) -> bool
        ensures { result ≡ (nat_le 1 p && nat_le p (setup_of self.now).n) }
    {
        (1..=u32::from(self.n)).contains(&p)
    }

    // Whether an item of the agenda has this number.
    pub fn has_item(&self, item: u32) -> bool
        ensures { result ≡ (nat_le 1 item && nat_le item (length (setup_of self.now).agenda)) }
    {
        (1..=self.count).contains(&(item as usize))
    }
}
