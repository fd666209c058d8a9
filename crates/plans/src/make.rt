// Making a plan.
ghost use Rattle.std.specs.Prelude.{◌≡◌, ◌≤◌, length, take};
ghost use Rattle.plans.specs.Setups.{setup_in, sizes_fit, item_fits, items_fit, agenda_fits, planned};

use crate::plan::{Appointment, Plan, Sizes};
use refusals::Refusal;

impl Sizes {
    fn fit(self) -> bool
        ensures { result ≡ sizes_fit self.n self.f self.d self.e }
    {
        match self {
            Sizes {
                n: 3..=8,
                f,
                d: 1..=1000,
                e: 0..=1000,
            } => f <= self.n - 2,
            _ => false,
        }
    }
}

impl Appointment {
    fn fits(self, n: u32) -> bool
        ensures { result ≡ item_fits n self }
    {
        (1..=n).contains(&self.sender) && self.reading <= 1_000_000
    }
}

fn items_fit(n: u32, agenda: &[Appointment]) -> bool
    ensures { result ≡ items_fit n agenda.now }
{
    agenda.iter().all(|item| item.fits(n))
}

fn agenda_fits(n: u32, agenda: &[Appointment]) -> bool
    ensures { result ≡ agenda_fits n agenda.now }
{
    match agenda.len() {
        1..=8 => items_fit(n, agenda),
        _ => false,
    }
}

// The agenda at the front of eight places.
fn places(agenda: &[Appointment]) -> [Appointment; 8]
    requires { length agenda.now ≤ 8 }
    ensures front { take (length agenda.now) result ≡ agenda.now }
    ensures eight { length result ≡ 8 }
{
    let vacant = Appointment {
        sender: 0,
        reading: 0,
    };
    let mut items = [vacant; 8];
    items[0..agenda.len()].copy_from_slice(agenda);
    items
}

impl Plan {
    // A plan of these sizes and this agenda, or row 1 or 2.
    pub fn new(sizes: Sizes, agenda: &[Appointment]) -> Result<Plan, Refusal>
        ensures { setup_in result ≡ planned sizes.n sizes.f sizes.d sizes.e agenda.now }
    {
        if !sizes.fit() {
            return Err(Refusal::Size);
        }
        if !agenda_fits(sizes.n, agenda) {
            return Err(Refusal::Agenda);
        }
        let items = places(agenda);
        Ok(Plan {
            n: sizes.n as u8,
            f: sizes.f as u8,
            d: sizes.d,
            e: sizes.e,
            items,
            count: agenda.len(),
        })
    }
}
