// The calls on clocks, faults and time.
ghost use Rattle.std.specs.Prelude.{◌≡◌, ◌+◌, ◌<◌, ◌≤◌, length, IfSome, IfOk};
ghost use Rattle.std.specs.Option.{option_map};
ghost use Rattle.plans.specs.Setups.{setup_of};
ghost use Rattle.bench.specs.Model.{core_of, model_of};
ghost use Rattle.bench.specs.Places.{correct_at};
ghost use Rattle.bench.specs.Calls.{lifted, count_true, seat, turns, sets, goal_of, is_correct, is_late, overdue, advances};

use crate::flight::Flight;
use crate::place::Place;
use crate::seats::Seats;
use crate::state::{Bench, Inner};
use kinds::Kind;
use plans::Plan;
use refusals::Refusal;
use seals::Scheme;

// Real time ends here.
const LAST: u64 = 2_000_000;

// Whether the flight would be past its time at t.
fn is_late(plan: &Plan, seats: &Seats, t: u32, flight: &Flight) -> bool
    ensures { result ≡ is_late (setup_of plan.now) seats.now.turned t flight.now }
{
    seats.is_correct(flight.author)
        && seats.goal_of(flight).is_some()
        && u64::from(flight.time) + u64::from(plan.d) <= u64::from(t)
}

impl Inner {
    // Row 12: the processor at place q has not turned.
    pub(crate) fn correct(&self, q: Place) -> Result<Place, Refusal>
        ensures { result ≡ correct_at (core_of self.now) q }
    {
        if self.seats.has_turned(q) {
            return Err(Refusal::Faulty);
        }
        Ok(q)
    }

    // The place of a processor that has not turned, or row 10 or 12.
    pub(crate) fn seat(&self, plan: &Plan, p: u32) -> Result<Place, Refusal>
        ensures { result ≡ seat (setup_of plan.now) (core_of self.now) p }
    {
        self.correct(Place::of(plan, p)?)
    }

    // The place of the lowest flight that would be past its time at t.
    fn overdue(&self, plan: &Plan, t: u32) -> Option<usize>
        ensures is { result ≡ overdue (setup_of plan.now) (core_of self.now) t }
        ensures within { IfSome result (λ i. i < 120) }
    {
        let flights = self.flights.as_slice();
        flights
            .iter()
            .position(|flight| is_late(plan, &self.seats, t, flight))
    }
}

impl<S: Scheme, K: Kind> Bench<S, K> {
    // Turns processor p faulty, for good.
    pub fn turn(&mut self, p: u32) -> Result<(), Refusal>
        ensures { (result, model_of S.Scheme.meaning self.new) ≡ lifted (turns p) (model_of S.Scheme.meaning self.old) }
    {
        let plan = self.inner.plan?;
        let q = self.inner.seat(&plan, p)?;
        if self.inner.seats.count_turned() >= usize::from(plan.f) {
            return Err(Refusal::Spare);
        }
        self.inner.seats.turn(q);
        Ok(())
    }

    // Sets the clock of processor p.
    pub fn set(&mut self, p: u32, offset: u32) -> Result<(), Refusal>
        ensures { (result, model_of S.Scheme.meaning self.new) ≡ lifted (sets p offset) (model_of S.Scheme.meaning self.old) }
    {
        let plan = self.inner.plan?;
        let q = self.inner.seat(&plan, p)?;
        if offset > plan.e {
            return Err(Refusal::Offset);
        }
        self.inner.seats.set_offset(q, offset);
        Ok(())
    }

    // Lets k ticks of real time pass, and answers the time.
    pub fn advance(&mut self, k: u64) -> Result<u32, Refusal>
        ensures { (result, model_of S.Scheme.meaning self.new) ≡ lifted (advances k) (model_of S.Scheme.meaning self.old) }
    {
        let plan = self.inner.plan?;
        let t = match u64::from(self.inner.time).checked_add(k) {
            Some(t) if t <= LAST => t as u32,
            _ => return Err(Refusal::End),
        };
        if let Some(i) = self.inner.overdue(&plan, t) {
            return Err(Refusal::Due(i as u8 + 1));
        }
        self.inner.time = t;
        Ok(t)
    }
}
