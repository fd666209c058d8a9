// Seals numbered in order of issue, 64 for each signer.
ghost use Rattle.std.specs.Prelude.{◌≡◌, ◌+◌, length};
ghost use Rattle.seals.specs.Books.{book_of, fresh};

use crate::book::{Book, EACH};
use crate::numbering::Numbering;
use crate::register::Register;

// The first seal has the number 1.
#[derive(Clone, Copy, Debug, PartialEq, Eq)]
pub struct InOrder;

pub type Ledger = Register<InOrder>;

impl Ledger {
    pub fn new() -> Ledger
        ensures { book_of result.book ≡ fresh 64 }
    {
        Register {
            book: Book::new(EACH as u8),
            numbering: InOrder,
        }
    }
}

impl Numbering for InOrder {
    // 1 more than the number of seals issued before it.
    ghost number = { λ o m p. 1 + length m.triples };

    fn number(&self, book: &Book, _signer: u8) -> u32 {
        1 + book.len() as u32
    }
}
