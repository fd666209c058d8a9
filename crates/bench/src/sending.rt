// The calls by which frames begin and arrive, and by which items are decided.
ghost use Rattle.std.specs.Prelude.{◌≡◌, ℕ, ◌<◌, ◌≤◌, length, IfOk};
ghost use Rattle.plans.specs.Setups.{setup_of};
ghost use Rattle.bench.specs.Model.{core_of, model_of};
ghost use Rattle.bench.specs.Calls.{lifted};
ghost use Rattle.bench.specs.Sending.{actor, opens, route, injects, flight_at, delivers, decides};

use crate::place::Place;
use crate::state::{Bench, Inner};
use kinds::Kind;
use plans::Plan;
use processor::Decision;
use refusals::Refusal;
use seals::Scheme;

impl Inner {
    // The place of p, which is asked about an item, or row 10, 11 or 12.
    fn actor(&self, plan: &Plan, p: u32, item: u32) -> Result<Place, Refusal>
        ensures { result ≡ actor (setup_of plan.now) (core_of self.now) p item }
    {
        let q = Place::of(plan, p)?;
        if !plan.has_item(item) {
            return Err(Refusal::Item);
        }
        self.correct(q)
    }

    // The place of the receiver of injected bytes, or row 10, 12 or 13.
    fn route(&self, plan: &Plan, from: u32, to: u32) -> Result<Place, Refusal>
        ensures { result ≡ route (setup_of plan.now) (core_of self.now) from to }
    {
        let sender = Place::of(plan, from)?;
        let q = self.correct(Place::of(plan, to)?)?;
        if !self.seats.has_turned(sender) {
            return Err(Refusal::Sound);
        }
        Ok(q)
    }

    // The place of flight k, which is on its way to place q, or row 23.
    fn flight(&self, k: u32, q: Place) -> Result<usize, Refusal>
        ensures is { result ≡ flight_at (core_of self.now) k q }
        ensures within { IfOk result (λ i. i < length self.now.flights) }
    {
        let flights = self.flights.as_slice();
        let k = k as usize;
        if !(1..=flights.len()).contains(&k) || !flights[k - 1].goals[q.index()] {
            return Err(Refusal::Flight);
        }
        Ok(k - 1)
    }
}

impl<S: Scheme, K: Kind> Bench<S, K> {
    // Processor p opens an item with a value; answers the flight.
    pub fn open(&mut self, p: u32, item: u32, value: u64) -> Result<u32, Refusal>
        ensures { (z : ℕ) × ((result, model_of S.Scheme.meaning self.new) ≡ opens K.Kind.admitted z p item value (model_of S.Scheme.meaning self.old)) }
    {
        let plan = self.inner.plan?;
        let q = self.inner.actor(&plan, p, item)?;
        let reading = self.inner.reading(q);
        let mut part = self.inner.seats.part(q);
        let owed = part.open(&plan, &self.kind, reading, item, value)?;
        let flight = self.launch(&plan, owed)?;
        self.inner.seats.set_part(q, part);
        Ok(flight)
    }

    // A faulty processor sends any bytes to another; answers the new flight where they are accepted, or 0.
    pub fn inject(&mut self, from: u32, to: u32, bytes: &[u8]) -> Result<u32, Refusal>
        ensures { (z : ℕ) × ((result, model_of S.Scheme.meaning self.new) ≡ injects K.Kind.admitted K.Kind.same z from to bytes.now (model_of S.Scheme.meaning self.old)) }
    {
        let plan = self.inner.plan?;
        let q = self.inner.route(&plan, from, to)?;
        self.receive(&plan, q, bytes)
    }

    // Ends flight k's way to p, and p receives the frame; answers the new flight where it is accepted, or 0.
    pub fn deliver(&mut self, k: u32, p: u32) -> Result<u32, Refusal>
        ensures { (z : ℕ) × ((result, model_of S.Scheme.meaning self.new) ≡ delivers K.Kind.admitted K.Kind.same z k p (model_of S.Scheme.meaning self.old)) }
    {
        let plan = self.inner.plan?;
        let q = self.inner.seat(&plan, p)?;
        let i = self.inner.flight(k, q)?;
        self.arrive(&plan, i, q)
    }

    // Processor p decides an item; answers the decision.
    pub fn decide(&mut self, p: u32, item: u32) -> Result<Decision, Refusal>
        ensures { (result, model_of S.Scheme.meaning self.new) ≡ lifted (decides p item) (model_of S.Scheme.meaning self.old) }
    {
        let plan = self.inner.plan?;
        let q = self.inner.actor(&plan, p, item)?;
        let reading = self.inner.reading(q);
        let mut part = self.inner.seats.part(q);
        let decision = part.decide(&plan, reading, item)?;
        self.inner.seats.set_part(q, part);
        Ok(decision)
    }
}
