// How an entry is made, and what it is asked.
ghost use Rattle.std.specs.Prelude.{◌≡◌, ◌≤◌, length};
ghost use Rattle.seals.specs.Meanings.{triple, is_of};
ghost use Rattle.seals.specs.Entries.{triple_of};

use crate::entry::{Entry, LONGEST};

impl Entry {
    pub fn new(signer: u8, text: &[u8], seal: u32) -> Entry
        requires { length text.now ≤ 24 }
        ensures { triple_of result ≡ triple signer text.now seal }
    {
        let size = text.len();
        let mut bytes = [0; LONGEST];
        bytes[..size].copy_from_slice(text);
        Entry {
            signer,
            size,
            text: bytes,
            seal,
        }
    }

    fn text(&self) -> &[u8]
        ensures { result.now ≡ (triple_of self.now).text }
    {
        &self.text[..self.size]
    }

    // Whether the entry is of this signer and text.
    pub fn is_of(&self, signer: u8, text: &[u8]) -> bool
        ensures { result ≡ is_of signer text.now (triple_of self.now) }
    {
        self.signer == signer && self.text() == text
    }
}
