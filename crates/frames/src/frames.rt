// What a frame is asked.
ghost use Rattle.std.specs.Prelude.{◌≡◌, ◌≤◌, length, take, replicate, MatchOption};
ghost use Rattle.std.specs.Simd.{first_chunks};
ghost use Rattle.frames.specs.Bytes.{placed};
ghost use Rattle.frames.specs.Texts.{is_link, link_at, numbers_of, text_answer, text_left, text_of};
ghost use Rattle.frames.specs.Views.{count_of, fields_of};

use crate::frame::Frame;
use crate::link::Link;
use crate::texts::{LONGEST_TEXT, link_text};

impl Frame<'_> {
    pub fn item(&self) -> u8
        ensures { result ≡ (fields_of self.now).item }
    {
        self.item
    }

    pub fn value(&self) -> u64
        ensures { result ≡ (fields_of self.now).value }
    {
        self.value
    }

    // The bytes of each link.
    fn parts(&self) -> &[[u8; 5]]
        ensures bytes { result.now ≡ first_chunks 5 (count_of self.now.links.now) self.now.links.now }
        ensures count { length result.now ≡ count_of self.now.links.now }
    {
        let (parts, _) = self.links.as_chunks();
        parts
    }

    // The number of links.
    pub fn count(&self) -> u8
        ensures count { result ≡ length (fields_of self.now).links }
        ensures few { result ≤ 8 }
    {
        self.parts().len() as u8
    }

    // Whether there is a link k, counted from 1.
    fn has_link(&self, k: u8) -> bool
        ensures { result ≡ is_link (fields_of self.now) k }
    {
        (1..=self.count()).contains(&k)
    }

    // Link k, counted from 1; none outside 1 to the number of links.
    pub fn link(&self, k: u8) -> Option<Link>
        ensures { result ≡ link_at (fields_of self.now) k }
    {
        if !self.has_link(k) {
            return None;
        }
        Some(Link::from(self.parts()[k as usize - 1]))
    }

    // The processor numbers of the links, and then zeros: an array of eight, since there is no heap here.
    pub fn processors(&self) -> [u8; 8]
        ensures { result ≡ placed (numbers_of (fields_of self.now).links) (replicate 8 0) }
    {
        let mut numbers = [0; 8];
        for (k, part) in self.parts().iter().enumerate() {
            numbers[k] = Link::from(*part).processor;
        }
        numbers
    }

    // Writes the text of link k to the front of the buffer, and answers its length; nothing where there is no link k.
    // The caller lends the bytes: no heap here.
    pub fn text(&self, k: u8, out: &mut [u8; LONGEST_TEXT]) -> Option<usize>
        ensures answer { result ≡ text_answer (is_link (fields_of self.now) k) k }
        ensures bytes { out.new ≡ text_left (is_link (fields_of self.now) k) (text_of (fields_of self.now) k) out.old }
        ensures front { MatchOption result (out.new ≡ out.old) (λ n. (n ≤ 18) × (take n out.new ≡ text_of (fields_of self.now) k)) }
    {
        if !self.has_link(k) {
            return None;
        }
        let numbers = self.processors();
        link_text(self.item, self.value, &numbers[..k as usize], out)
    }
}
