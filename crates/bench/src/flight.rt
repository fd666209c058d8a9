// A broadcast under way.
ghost use Rattle.std.specs.Prelude.{◌≡◌};
ghost use Rattle.bench.specs.Flights.{bytes_of};

use processor::LONGEST_FRAME;

// The frame that its author sent at `time`, in the first `length` bytes; goals[q] says that it is still on its way to
// processor q + 1. Arrays, with the length of the frame: no heap here.
#[derive(Clone, Copy, Debug, PartialEq, Eq)]
pub struct Flight {
    pub item: u8,
    pub author: u8,
    pub time: u32,
    pub frame: [u8; LONGEST_FRAME],
    pub length: usize,
    pub goals: [bool; 8],
}

impl Flight {
    // The bytes of the frame.
    pub fn bytes(&self) -> &[u8]
        ensures { result.now ≡ bytes_of self.now }
    {
        &self.frame[..self.length.min(LONGEST_FRAME)]
    }
}
