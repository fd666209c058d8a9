// Settling: every delivery that is left, then time, then every decision.
ghost use Rattle.std.specs.Prelude.{◌≡◌, ℕ, ◌<◌, ◌≤◌, length, IfSome, None};
ghost use Rattle.plans.specs.Readings.{latest};
ghost use Rattle.plans.specs.Setups.{setup_of};
ghost use Rattle.bench.specs.Model.{core_of, model_of};
ghost use Rattle.bench.specs.Flights.{on_core};
ghost use Rattle.bench.specs.Settling.{next, comes, Delivered, risen, decides_items, decides_all, Settles};

use crate::place::Place;
use crate::state::{Bench, Inner};
use kinds::Kind;
use plans::Plan;
use processor::end;
use refusals::Refusal;
use seals::Scheme;

impl Inner {
    // The place of the lowest flight with a goal that has not turned, and the place of its lowest such goal: a pair, as
    // its definition has it, and taken apart at once.
    fn next(&self) -> Option<(usize, Place)>
        ensures is { result ≡ next (core_of self.now) }
        ensures within { IfSome result (λ x. x.0 < length self.now.flights) }
    {
        for (i, flight) in self.flights.as_slice().iter().enumerate() {
            if let Some(q) = self.seats.goal_of(flight) {
                return Some((i, q));
            }
        }
        None
    }
}

impl<S: Scheme, K: Kind> Bench<S, K> {
    // The flight at place i comes to the processor at place q. Its way there ends whatever is answered, so that
    // settling ends; deliver keeps the way open where the scheme refuses to seal.
    fn bring(&mut self, plan: &Plan, i: usize, q: Place)
        requires { i < length self.old.inner.flights }
        ensures { (z : ℕ) × (model_of S.Scheme.meaning self.new ≡ comes K.Kind.admitted K.Kind.same (setup_of plan.now) z i q (model_of S.Scheme.meaning self.old)) }
    {
        let flight = self.inner.flights.as_slice()[i];
        let _ = self.receive(plan, q, flight.bytes());
        self.inner.flights.land(i, q);
    }

    // Makes every delivery that is left, and those that come of it; their number.
    fn deliver_all(&mut self, plan: &Plan) -> u32
        ensures way { Delivered K.Kind.admitted K.Kind.same (setup_of plan.now) (model_of S.Scheme.meaning self.old) result (model_of S.Scheme.meaning self.new) }
        ensures over { next (model_of S.Scheme.meaning self.new).core ≡ None }
    {
        let mut done = 0;
        while let Some(way) = self.inner.next() {
            // Here and not in the pattern, where a proof would have two names for the place.
            let (i, q) = way;
            self.bring(plan, i, q);
            done += 1;
        }
        done
    }

    // Now rises until every item is over, unless it is past that.
    fn rise(&mut self, plan: &Plan)
        requires { latest (setup_of plan.now).agenda ≤ 1000000 }
        ensures { model_of S.Scheme.meaning self.new ≡ on_core (model_of S.Scheme.meaning self.old) (risen (setup_of plan.now) (model_of S.Scheme.meaning self.old).core) }
    {
        let over = end(plan, plan.latest());
        self.inner.time = u64::from(self.inner.time).max(over) as u32;
    }

    // Processor p decides so many items. Where p has turned, row 12 refuses each, and nothing changes.
    fn decide_items(&mut self, p: u32, items: u32)
        ensures { model_of S.Scheme.meaning self.new ≡ on_core (model_of S.Scheme.meaning self.old) (decides_items p items (model_of S.Scheme.meaning self.old).core) }
    {
        for item in 1..=items {
            let _ = self.decide(p, item);
        }
    }

    // Every processor decides every item.
    fn decide_all(&mut self, plan: &Plan)
        ensures { model_of S.Scheme.meaning self.new ≡ on_core (model_of S.Scheme.meaning self.old) (decides_all (setup_of plan.now).n (length (setup_of plan.now).agenda) (model_of S.Scheme.meaning self.old).core) }
    {
        let items = plan.agenda().len() as u32;
        for p in 1..=u32::from(plan.n) {
            self.decide_items(p, items);
        }
    }

    // Delivers, again and again, the lowest flight with a correct goal to the lowest such goal; then lets time pass until
    // every item is over; then every correct processor decides every item. Answers the number of deliveries.
    pub fn settle(&mut self) -> Result<u32, Refusal>
        ensures { Settles K.Kind.admitted K.Kind.same (model_of S.Scheme.meaning self.old) result (model_of S.Scheme.meaning self.new) }
    {
        let plan = self.inner.plan?;
        let done = self.deliver_all(&plan);
        self.rise(&plan);
        self.decide_all(&plan);
        Ok(done)
    }
}
