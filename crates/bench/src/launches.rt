// Broadcasts under way: how one begins, and how it comes to a processor.
ghost use Rattle.std.specs.Prelude.{◌≡◌, ℕ, ◌+◌, ◌<◌, ◌≤◌, length};
ghost use Rattle.plans.specs.Setups.{setup_of};
ghost use Rattle.bench.specs.Model.{core_of, model_of};
ghost use Rattle.bench.specs.Flights.{reading_at, goes_to, goals_for, flies, launches, receives, marked, marks, ends_way, arrives};

use crate::flight::Flight;
use crate::place::Place;
use crate::state::{Bench, Inner};
use kinds::Kind;
use plans::Plan;
use processor::{LONGEST_FRAME, Owed, Unsent, forgo, relay};
use refusals::Refusal;
use seals::Scheme;

// Whether a delivery with this answer ends the flight's way: not where the scheme refused to seal.
fn ends_way(res: Result<u32, Refusal>) -> bool
    ensures { result ≡ ends_way res }
{
    match res {
        Ok(_) => true,
        Err(refusal) => refusal.is_drop(),
    }
}

fn goes_to(plan: &Plan, owed: &Owed, p: u8) -> bool
    ensures { result ≡ goes_to (setup_of plan.now) owed.now p }
{
    p <= plan.n && !owed.names(p)
}

fn goals_for(plan: &Plan, owed: &Owed) -> [bool; 8]
    ensures { result ≡ goals_for (setup_of plan.now) owed.now }
{
    [1, 2, 3, 4, 5, 6, 7, 8].map(|p| goes_to(plan, owed, p))
}

impl Inner {
    // What the clock of the processor at place q reads.
    pub(crate) fn reading(&self, q: Place) -> u64
        ensures { result ≡ reading_at (core_of self.now) q }
    {
        u64::from(self.time) + u64::from(self.seats.offset(q))
    }
}

impl<S: Scheme, K: Kind> Bench<S, K> {
    // Relays what is owed: it becomes a flight, whose number is answered. Where that is refused, it is given up.
    pub(crate) fn launch(&mut self, plan: &Plan, owed: Owed) -> Result<u32, Refusal>
        ensures grows { length self.old.inner.flights ≤ length self.new.inner.flights }
        ensures is { (z : ℕ) × ((result, model_of S.Scheme.meaning self.new) ≡ launches (setup_of plan.now) z owed (model_of S.Scheme.meaning self.old)) }
    {
        if self.inner.flights.is_full() {
            forgo(owed);
            return Err(Refusal::Room);
        }
        let item = owed.item();
        let author = owed.own();
        let goals = goals_for(plan, &owed);
        let time = self.inner.time;
        // The longest frame's room: no heap here.
        let mut frame = [0; LONGEST_FRAME];
        match relay(owed, &mut self.scheme, &mut frame) {
            Ok(length) => Ok(
                self.inner.flights.push(Flight {
                    item,
                    author,
                    time,
                    frame,
                    length,
                    goals,
                }),
            ),
            Err(Unsent { refusal, owed }) => {
                forgo(owed);
                Err(refusal)
            }
        }
    }
}

impl<S: Scheme, K: Kind> Bench<S, K> {
    // The processor at place q receives bytes. Its part is copied out, and written back where the frame is accepted.
    // The answer is the new flight, or 0: no Option, since the rules number an answer without a flight 0.
    pub(crate) fn receive(&mut self, plan: &Plan, q: Place, bytes: &[u8]) -> Result<u32, Refusal>
        ensures grows { length self.old.inner.flights ≤ length self.new.inner.flights }
        ensures is { (z : ℕ) × ((result, model_of S.Scheme.meaning self.new) ≡ receives K.Kind.admitted K.Kind.same (setup_of plan.now) z q bytes.now (model_of S.Scheme.meaning self.old)) }
    {
        let reading = self.inner.reading(q);
        let mut part = self.inner.seats.part(q);
        match part.receive(plan, &self.scheme, &self.kind, reading, bytes)? {
            None => {
                self.inner.seats.set_part(q, part);
                Ok(0)
            }
            Some(owed) => {
                let flight = self.launch(plan, owed)?;
                self.inner.seats.set_part(q, part);
                Ok(flight)
            }
        }
    }

    // The flight at place i comes to the processor at place q, and its way there ends.
    pub(crate) fn arrive(&mut self, plan: &Plan, i: usize, q: Place) -> Result<u32, Refusal>
        requires { i < length self.old.inner.flights }
        ensures { (z : ℕ) × ((result, model_of S.Scheme.meaning self.new) ≡ arrives K.Kind.admitted K.Kind.same (setup_of plan.now) z i q (model_of S.Scheme.meaning self.old)) }
    {
        let flight = self.inner.flights.as_slice()[i];
        let result = self.receive(plan, q, flight.bytes());
        if ends_way(result) {
            self.inner.flights.land(i, q);
        }
        result
    }
}
