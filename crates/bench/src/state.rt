// The bench's state: n parts, their clocks, and the broadcasts under way.
ghost use Rattle.std.specs.Prelude.{◌≤◌, length};
ghost use Rattle.std.specs.Result.{ForOk};
ghost use Rattle.plans.specs.Readings.{latest};
ghost use Rattle.plans.specs.Setups.{setup_of};

use crate::flights::Flights;
use crate::seats::Seats;
use plans::Plan;
use refusals::Refusal;

// A refused making leaves its refusal in the place of the plan. No model: its parts have theirs, and `core_of` names them.
#[derive(Drop)]
pub struct Inner {
    pub plan: Result<Plan, Refusal>,
    pub time: u32,
    pub seats: Seats,
    pub flights: Flights,
}

// The processors, and the scheme that they seal with. No model of its own: `into_scheme` gives the very scheme back, and
// a view by its meaning would forget it. A call takes the plan out and lends it on: a refused making has none.
#[derive(Drop)]
pub struct Bench<S, K> {
    pub(crate) inner: Inner,
    pub(crate) scheme: S,
    pub(crate) kind: K,
    ghost few: { length inner.flights ≤ 120 },
    ghost timely: { ForOk inner.plan (λ p. latest (setup_of p).agenda ≤ 1000000) },
}
