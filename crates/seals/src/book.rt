// The issued seals, and how many each signer may still ask for.
ghost use Rattle.std.specs.Prelude.{◌≡◌, ◌+◌, ◌≤◌, true, length, sum};
ghost use Rattle.seals.specs.Meanings.{single, all_known};
ghost use Rattle.seals.specs.Entries.{triples_of};

use crate::entry::Entry;

// The signers, the most seals of each, and room for them all.
pub const SIGNERS: usize = 8;

pub const EACH: usize = 64;

pub const PLACES: usize = SIGNERS * EACH;

// The first `used` entries are the issued ones, in order of issue; signer p has `left[p - 1]` left.
// Arrays with a length: no heap here, and a book is copied, so no model either: a view forgets the unused places.
#[derive(Clone, Copy, Debug, PartialEq, Eq)]
pub struct Book {
    pub entries: [Entry; PLACES],
    pub used: usize,
    pub left: [u8; SIGNERS],
    ghost places: { length entries ≡ 512 },
    ghost eight: { length left ≡ 8 },
    ghost space: { used + sum left ≤ 512 },
    ghost once: { single (triples_of used entries) ≡ true },
    ghost signers: { all_known (triples_of used entries) ≡ true },
}
