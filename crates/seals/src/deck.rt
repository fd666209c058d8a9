// Seals dealt to each signer beforehand, and spent in dealt order.
ghost use Rattle.std.specs.Prelude.{◌≡◌, ◌≤◌, min};
ghost use Rattle.seals.specs.Meanings.{next_of};
ghost use Rattle.seals.specs.Books.{book_of, fresh};

use crate::book::{Book, EACH, SIGNERS};
use crate::numbering::Numbering;
use crate::register::Register;

// Row p - 1 of `hands` is signer p's, and the first `dealt` numbers of it are dealt.
// Arrays with a length: no heap here, and a deck is copied.
#[derive(Clone, Copy, Debug, PartialEq, Eq)]
pub struct Hands {
    dealt: usize,
    hands: [[u32; EACH]; SIGNERS],
    ghost few: { dealt ≤ 64 },
}

pub type Deck = Register<Hands>;

impl Deck {
    // Deals the first `each` numbers of its row to each signer, all 64 if that is more.
    pub fn new(each: usize, hands: &[[u32; EACH]; SIGNERS]) -> Deck
        ensures meaning { book_of result.book ≡ fresh (min each 64) }
        ensures dealt { result.numbering.dealt ≡ min each 64 }
        ensures hands { result.numbering.hands ≡ hands.now }
    {
        let dealt = each.min(EACH);
        Register {
            book: Book::new(dealt as u8),
            numbering: Hands {
                dealt,
                hands: *hands,
            },
        }
    }
}

impl Numbering for Hands {
    // The next number of the signer's hand.
    ghost number = { λ h m p. next_of h.hands h.dealt m p };

    fn number(&self, book: &Book, signer: u8) -> u32 {
        self.hands[signer as usize - 1][self.dealt.saturating_sub(book.left(signer))]
    }
}
