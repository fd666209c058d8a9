// How new seals are numbered.
ghost use Rattle.std.specs.Prelude.{◌≡◌, ℕ, ◌<◌, true};
ghost use Rattle.seals.specs.Meanings.{Meaning, known, left_of};
ghost use Rattle.seals.specs.Books.{book_of};

use crate::book::Book;

pub trait Numbering {
    ghost number: { Self → Meaning → ℕ → ℕ };

    // The number of the next seal of a signer that has some left.
    fn number(&self, book: &Book, signer: u8) -> u32
        requires signer { known signer ≡ true }
        requires some { 0 < left_of (book_of book.now) signer }
        ensures { result ≡ number self.now (book_of book.now) signer };
}
