// What a bench keeps for each of its processors.
ghost use Rattle.std.specs.Prelude.{◌≡◌, ◌<◌, true, false, IfSome, slice_index, slice_index_or, slice_set};
ghost use Rattle.bench.specs.Calls.{count_true, goal_of, is_correct};
ghost use Rattle.bench.specs.Making.{fresh_seating};
ghost use Rattle.bench.specs.Reports.{no_part, decisions_in};

use crate::flight::Flight;
use crate::place::Place;
use processor::{Decision, Part};
use std::marker::Model;

// The offset of the processor's clock, whether it has turned faulty, and its part.
#[derive(Clone, Copy, Debug, PartialEq, Eq)]
pub struct Seat {
    pub offset: u32,
    pub turned: bool,
    pub part: Part,
}

// The seats of processors 1 to 8, in order.
#[derive(Drop)]
pub struct Seats {
    seats: [Seat; 8],
}

impl Model for Seats {
    ghost use Rattle.std.specs.Prelude.{◌≡◌, length, map};
    ghost use Rattle.bench.specs.Seating.{Seating};

    ghost Value = { Seating };

    ghost view = { λ s. record { offsets = map (λ x. x.offset) s.seats; turned = map (λ x. x.turned) s.seats; parts = map (λ x. x.part) s.seats } };

    ghost invariant = { λ s. length s.seats ≡ 8 };
}

impl Seats {
    // No clock has an offset, nobody has turned, and nothing is accepted.
    pub fn new() -> Seats
        ensures { result ≡ fresh_seating }
    {
        Seats {
            seats: [1, 2, 3, 4, 5, 6, 7, 8].map(|p| Seat {
                offset: 0,
                turned: false,
                part: Part::new(p),
            }),
        }
    }

    pub fn offset(&self, q: Place) -> u32
        ensures { result ≡ slice_index self.now.offsets q }
    {
        self.seats[q.index()].offset
    }

    pub fn has_turned(&self, q: Place) -> bool
        ensures { result ≡ slice_index_or self.now.turned q false }
    {
        self.seats[q.index()].turned
    }

    pub fn part(&self, q: Place) -> Part
        ensures { result ≡ slice_index_or self.now.parts q no_part }
    {
        self.seats[q.index()].part
    }

    pub fn set_offset(&mut self, q: Place, offset: u32)
        ensures { self.new ≡ record { offsets = slice_set self.old.offsets q offset; turned = self.old.turned; parts = self.old.parts } }
    {
        self.seats[q.index()].offset = offset;
    }

    pub fn turn(&mut self, q: Place)
        ensures { self.new ≡ record { offsets = self.old.offsets; turned = slice_set self.old.turned q true; parts = self.old.parts } }
    {
        self.seats[q.index()].turned = true;
    }

    pub fn set_part(&mut self, q: Place, part: Part)
        ensures { self.new ≡ record { offsets = self.old.offsets; turned = self.old.turned; parts = slice_set self.old.parts q part } }
    {
        self.seats[q.index()].part = part;
    }

    // How many have turned.
    pub fn count_turned(&self) -> usize
        ensures { result ≡ count_true self.now.turned }
    {
        self.seats.iter().filter(|seat| seat.turned).count()
    }

    // Whether p is a processor that has not turned.
    pub fn is_correct(&self, p: u8) -> bool
        ensures { result ≡ is_correct self.now.turned p }
    {
        match p {
            1..=8 => !self.has_turned(Place::new(usize::from(p) - 1)),
            _ => false,
        }
    }

    // The index of the first goal of the flight that has not turned.
    fn first_goal(&self, flight: &Flight) -> Option<usize>
        ensures is { result ≡ goal_of self.now.turned flight.now }
        ensures within { IfSome result (λ q. q < 8) }
    {
        let mut ways = flight.goals.iter().zip(&self.seats);
        ways.position(|(goal, seat)| *goal && !seat.turned)
    }

    // The place of the flight's lowest goal that has not turned.
    pub fn goal_of(&self, flight: &Flight) -> Option<Place>
        ensures { result ≡ goal_of self.now.turned flight.now }
    {
        let index = self.first_goal(flight)?;
        Some(Place::new(index))
    }

    // The decisions recorded for an item, that of processor p at p - 1. Written out, each seat lent: an array's `map` moves
    // all that it is given in and out once more.
    pub fn decisions(&self, item: u32) -> [Option<Decision>; 8]
        ensures { result ≡ decisions_in self.now.parts item }
    {
        let [a, b, c, d, e, f, g, h] = &self.seats;
        [
            a.part.decision(item),
            b.part.decision(item),
            c.part.decision(item),
            d.part.decision(item),
            e.part.decision(item),
            f.part.decision(item),
            g.part.decision(item),
            h.part.decision(item),
        ]
    }
}
