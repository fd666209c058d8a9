// The broadcasts under way, in order: flight k at place k - 1.
ghost use Rattle.std.specs.Prelude.{◌≡◌, ◌+◌, ◌<◌, ◌≤◌, [], ◌∷◌, ◌++◌, length, slice_index_or, slice_set, nat_le};
ghost use Rattle.bench.specs.Calls.{no_flight};
ghost use Rattle.bench.specs.Flights.{marked};

use crate::flight::Flight;
use crate::place::Place;
use processor::LONGEST_FRAME;
use std::marker::Model;

// The places for flights: eight items, and 2n - 1 broadcasts of each.
const PLACES: usize = 120;

// The first `count` of the records: a granted bench has a place for every broadcast, and no heap.
#[derive(Drop)]
pub struct Flights {
    records: [Flight; PLACES],
    count: usize,
}

impl Model for Flights {
    ghost use Rattle.std.specs.Prelude.{◌≡◌, ◌≤◌, List, length, take};
    ghost use Rattle.bench.specs.declared.flight.Flight.{Flight};

    ghost Value = { List Flight };

    ghost view = { λ f. take f.count f.records };

    ghost invariant = { λ f. (f.count ≤ 120) × (length f.records ≡ 120) };
}

// The flight is no longer on its way to place q.
fn mark(flight: &mut Flight, q: Place)
    ensures { flight.new ≡ marked flight.old q }
{
    flight.goals[q.index()] = false;
}

impl Flights {
    pub fn new() -> Flights
        ensures { result ≡ [] }
    {
        let vacant = Flight {
            item: 0,
            author: 0,
            time: 0,
            frame: [0; LONGEST_FRAME],
            length: 0,
            goals: [false; 8],
        };
        Flights {
            records: [vacant; PLACES],
            count: 0,
        }
    }

    pub fn as_slice(&self) -> &[Flight]
        ensures flights { result.now ≡ self.now }
        ensures few { length result.now ≤ 120 }
    {
        &self.records[..self.count]
    }

    pub fn is_full(&self) -> bool
        ensures { result ≡ nat_le 120 (length self.now) }
    {
        self.count == PLACES
    }

    // One flight more; its number.
    pub fn push(&mut self, flight: Flight) -> u32
        requires { length self.old < 120 }
        ensures flights { self.new ≡ self.old ++ (flight ∷ []) }
        ensures number { result ≡ length self.old + 1 }
    {
        self.records[self.count] = flight;
        self.count += 1;
        self.count as u32
    }

    // Ends the way of the flight at place i to place q.
    pub fn land(&mut self, i: usize, q: Place)
        requires { i < length self.old }
        ensures { self.new ≡ slice_set self.old i (marked (slice_index_or self.old i no_flight) q) }
    {
        let flights = &mut self.records[..self.count];
        mark(&mut flights[i], q);
    }
}
