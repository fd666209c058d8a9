// The items of the agenda.
ghost use Rattle.std.specs.Prelude.{◌≡◌, ◌≤◌, OnOk};
ghost use Rattle.plans.specs.Setups.{setup_of};
ghost use Rattle.processor.specs.Agendas.{appointed};

use plans::{Appointment, Plan};
use refusals::Refusal;

// Who speaks on the item, and at which reading; the row for what is no item.
pub(crate) fn appointment(plan: &Plan, item: u32, row: Refusal) -> Result<Appointment, Refusal>
    ensures is { result ≡ appointed (setup_of plan.now) item row }
    ensures within { OnOk result ((1 ≤ item) × (item ≤ 8)) }
{
    if !plan.has_item(item) {
        return Err(row);
    }
    Ok(plan.agenda()[item as usize - 1])
}
