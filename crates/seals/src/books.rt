// What a book is asked.
ghost use Rattle.std.specs.Prelude.{◌≡◌, ◌-◌, ◌<◌, ◌≤◌, true, length, None, slice_index, take};
ghost use Rattle.seals.specs.Meanings.{known, seal_of, holds, left_of, count_for, lowered, issued};
ghost use Rattle.seals.specs.Books.{book_of, fresh};

use crate::book::{Book, PLACES, SIGNERS};
use crate::entry::Entry;

impl Book {
    // A book with nothing in it, where each signer may ask for `each` seals.
    pub fn new(each: u8) -> Book
        requires { each ≤ 64 }
        ensures { book_of result ≡ fresh each }
    {
        Book {
            entries: [Entry::new(0, &[], 0); PLACES],
            used: 0,
            left: [each; SIGNERS],
        }
    }

    // The issued entries, in order of issue.
    fn issued(&self) -> &[Entry]
        ensures { result.now ≡ take self.now.used self.now.entries }
    {
        &self.entries[..self.used]
    }

    // The seal of this signer and text.
    pub fn find(&self, signer: u8, text: &[u8]) -> Option<u32>
        ensures { result ≡ seal_of (book_of self.now).triples signer text.now }
    {
        self.issued()
            .iter()
            .find(|e| e.is_of(signer, text))
            .map(|e| e.seal)
    }

    // Whether this seal was issued to the signer for the text.
    pub fn holds(&self, signer: u8, text: &[u8], seal: u32) -> bool
        ensures { result ≡ holds (book_of self.now).triples signer text.now seal }
    {
        self.issued()
            .iter()
            .any(|e| e.is_of(signer, text) && e.seal == seal)
    }

    // How many seals were issued.
    pub fn len(&self) -> usize
        ensures count { result ≡ length (book_of self.now).triples }
        ensures few { result ≤ 512 }
    {
        self.used
    }

    // How many seals the signer has.
    pub fn count(&self, signer: u8) -> usize
        ensures { result ≡ count_for signer (book_of self.now).triples }
    {
        self.issued().iter().filter(|e| e.signer == signer).count()
    }

    // How many seals the signer may still ask for. By the rules another signer has none left: no Option.
    pub fn left(&self, signer: u8) -> usize
        ensures { result ≡ left_of (book_of self.now) signer }
    {
        match signer {
            1..=8 => usize::from(self.left[signer as usize - 1]),
            _ => 0,
        }
    }

    // One entry more.
    pub fn add(&mut self, signer: u8, text: &[u8], seal: u32)
        requires signer { known signer ≡ true }
        requires text { length text.now ≤ 24 }
        requires fresh { seal_of (book_of self.old).triples signer text.now ≡ None }
        requires room { 0 < left_of (book_of self.old) signer }
        ensures { book_of self.new ≡ issued (book_of self.old) signer text.now seal }
    {
        self.entries[self.used] = Entry::new(signer, text, seal);
        self.used += 1;
        self.left[signer as usize - 1] -= 1;
    }
}
