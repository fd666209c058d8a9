// The place of a processor on a bench: processor p is at place p - 1.
ghost use Rattle.std.specs.Prelude.{◌≡◌, ◌<◌};
ghost use Rattle.plans.specs.Setups.{setup_of};
ghost use Rattle.bench.specs.Places.{place_of};

use plans::Plan;
use refusals::Refusal;
use std::marker::Model;

// One of the eight places, counted from 0. It derives no comparison: contracts see a number, and nothing compares places.
#[derive(Clone, Copy)]
pub struct Place {
    index: usize,
}

impl Model for Place {
    ghost use Rattle.std.specs.Prelude.{ℕ, ◌<◌};

    ghost Value = { ℕ };

    ghost view = { λ p. p.index };

    ghost inverse = { λ n. record { index = n } };

    ghost invariant = { λ p. p.index < 8 };
}

impl Place {
    pub fn new(index: usize) -> Place
        requires { index < 8 }
        ensures { result ≡ index }
    {
        Place { index }
    }

    // The place of processor p, or row 10.
    pub fn of(plan: &Plan, p: u32) -> Result<Place, Refusal>
        ensures { result ≡ place_of (setup_of plan.now) p }
    {
        if !plan.has_processor(p) {
            return Err(Refusal::Processor);
        }
        Ok(Place::new(p as usize - 1))
    }

    pub fn index(self) -> usize
        ensures is { result ≡ self }
        ensures low { result < 8 }
    {
        self.index
    }
}
