// A scheme: a book, and how its new seals are numbered.
ghost use Rattle.std.specs.Prelude.{◌≡◌};
ghost use Rattle.seals.specs.Meanings.{answered, signed, given};
ghost use Rattle.seals.specs.Books.{book_of};
ghost use Rattle.seals.specs.Tidies.{book_tidy};

use crate::book::Book;
use crate::entry::LONGEST;
use crate::numbering::Numbering;
use crate::scheme::Scheme;
use refusals::Refusal;

#[derive(Clone, Copy, Debug, PartialEq, Eq)]
pub struct Register<N> {
    pub(crate) book: Book,
    pub(crate) numbering: N,
}

impl<N: Numbering> Scheme for Register<N> {
    ghost meaning = { λ r. book_of r.book };

    ghost tidy = { λ r. book_tidy r.book };

    fn sign(&mut self, signer: u8, text: &[u8]) -> Result<u32, Refusal>
        ensures answer { result ≡ answered (book_of self.old.book) signer text.now (given result) }
        ensures after { book_of self.new.book ≡ signed (book_of self.old.book) signer text.now (given result) }
        ensures number { result ≡ answered (book_of self.old.book) signer text.now (N.number self.old.numbering (book_of self.old.book) signer) }
        ensures numbering { self.new.numbering ≡ self.old.numbering }
    {
        if !(1..=8).contains(&signer) {
            return Err(Refusal::Signer);
        }
        if text.len() > LONGEST {
            return Err(Refusal::Text);
        }
        if let Some(seal) = self.book.find(signer, text) {
            return Ok(seal);
        }
        if self.book.left(signer) == 0 {
            return Err(Refusal::Room);
        }
        let new = self.numbering.number(&self.book, signer);
        self.book.add(signer, text, new);
        Ok(new)
    }

    fn check(&self, signer: u8, text: &[u8], seal: u32) -> bool {
        self.book.holds(signer, text, seal)
    }

    fn left(&self, signer: u8) -> usize {
        self.book.left(signer)
    }

    fn count(&self, signer: u8) -> usize {
        self.book.count(signer)
    }

    fn longest(&self) -> usize {
        LONGEST
    }
}
