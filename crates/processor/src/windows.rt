// When a frame is in time, and when an item is over.
ghost use Rattle.std.specs.Prelude.{◌≡◌, ◌+◌};
ghost use Rattle.plans.specs.Setups.{setup_of};
ghost use Rattle.processor.specs.Windows.{window_of, delta_of, in_window};

use plans::Plan;
use refusals::Refusal;

// The window of a frame with so many links for an item at `start`: the first reading in time, and the first that is late.
pub(crate) fn window(plan: &Plan, start: u32, links: u8) -> (u64, u64)
    ensures { result ≡ window_of (setup_of plan.now) start links }
{
    let back = u64::from(links) * u64::from(plan.e);
    let ahead = u64::from(links) * (u64::from(plan.d) + u64::from(plan.e));
    let start = u64::from(start);
    (start.saturating_sub(back), start + ahead)
}

// Rows 38 and 39.
pub(crate) fn in_time(plan: &Plan, start: u32, links: u8, reading: u64) -> Result<(), Refusal>
    ensures { result ≡ in_window (window_of (setup_of plan.now) start links) reading }
{
    let (first, end) = window(plan, start, links);
    if reading < first {
        return Err(Refusal::Early);
    }
    if reading >= end {
        return Err(Refusal::Late);
    }
    Ok(())
}

// The reading at which an item of `start` is over.
pub fn end(plan: &Plan, start: u32) -> u64
    ensures { result ≡ start + delta_of (setup_of plan.now) }
{
    u64::from(start) + (u64::from(plan.f) + 1) * (u64::from(plan.d) + u64::from(plan.e))
}
