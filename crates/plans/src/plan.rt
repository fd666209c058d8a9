// What is agreed before a run: the sizes and the agenda.
ghost use Rattle.std.specs.Prelude.{◌≡◌, ◌+◌, ◌≤◌, length};

// The sizes of a run, as they are asked for: n processors, at most f of them faulty; a frame is under way for fewer than
// d ticks, and a clock is at most e ticks ahead. Without the agenda, which is lent: with it, sizes would have a lifetime,
// and a script has them before its items.
#[derive(Clone, Copy, Debug, PartialEq, Eq)]
pub struct Sizes {
    pub n: u32,
    pub f: u32,
    pub d: u32,
    pub e: u32,
}

// An item of the agenda: who speaks, and the clock reading at which it does.
#[derive(Clone, Copy, Debug, PartialEq, Eq)]
pub struct Appointment {
    pub sender: u32,
    pub reading: u32,
}

// Sizes and an agenda that passed their tests. The items are the first `count` of the eight places: an array with its
// length, since there is no heap here and a plan is copied, so no model either: a view forgets the unused places.
#[derive(Clone, Copy, Debug, PartialEq, Eq)]
pub struct Plan {
    pub n: u8,
    pub f: u8,
    pub d: u32,
    pub e: u32,
    pub items: [Appointment; 8],
    pub count: usize,
    ghost most: { n ≤ 8 },
    ghost sound: { f + 2 ≤ n },
    ghost brief: { d ≤ 1000 },
    ghost close: { e ≤ 1000 },
    ghost room: { length items ≡ 8 },
    ghost few: { count ≤ 8 },
}
