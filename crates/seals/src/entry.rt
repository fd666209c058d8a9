// One issued seal, with a text of at most 24 bytes.
ghost use Rattle.std.specs.Prelude.{◌^◌, ◌<◌, ◌≤◌};

// The longest text.
pub const LONGEST: usize = 24;

// The text is the first `size` bytes of `text`: an array with its length, since a
// book has no heap; copied, and so without a model.
#[derive(Clone, Copy, Debug, PartialEq, Eq)]
pub struct Entry {
    pub signer: u8,
    pub size: usize,
    pub text: [u8; LONGEST],
    pub seal: u32,
    ghost short: { size ≤ 24 },
    ghost small: { seal < 2 ^ 32 },
}
