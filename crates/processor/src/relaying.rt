// Spending what is owed: the broadcast is sealed and written as a frame, or given up.
ghost use Rattle.std.specs.Prelude.{◌≡◌, ℕ, ◌+◌, ◌≤◌, length, take, IfOk, Ok};
ghost use Rattle.seals.specs.Meanings.{answered, signed, given};
ghost use Rattle.frames.specs.Bytes.{decode};
ghost use Rattle.frames.specs.Texts.{text_for};
ghost use Rattle.processor.specs.Relaying.{frame_of, own_links, own_numbers, relayed, sent};

use crate::owed::Owed;
use frames::{LONGEST_TEXT, Link, link_text, write};
use refusals::Refusal;
use seals::Scheme;

// A frame of seven links, the longest that is relayed.
pub const LONGEST_FRAME: usize = 45;

// A refusal to relay, with the broadcast, which is still owed.
pub struct Unsent {
    pub refusal: Refusal,
    pub owed: Owed,
}

// Gives the broadcast up: each field is named, since `..` would leave it owed.
pub fn forgo(owed: Owed)
    ensures { result ≡ tt }
{
    let Owed {
        item: _,
        value: _,
        own: _,
        count: _,
        first: _,
        second: _,
        third: _,
        fourth: _,
        fifth: _,
        sixth: _,
    } = owed;
}

impl Owed {
    // The links so far, and then the own with its seal. An array with room behind them: no heap here.
    fn own_links(&self, seal: u32) -> [Link; 7]
        requires { self.now.count ≤ 6 }
        ensures { take (self.now.count + 1) result ≡ own_links self.now seal }
    {
        let own = Link {
            processor: self.own,
            seal,
        };
        let [a, b, c, d, e, f] = self.links();
        let mut links = [a, b, c, d, e, f, own];
        links[self.count as usize] = own;
        links
    }

    // The numbers of these links. Written out: an array's `map` moves each link in and out once more.
    fn own_numbers(&self) -> [u8; 7]
        requires { self.now.count ≤ 6 }
        ensures { take (self.now.count + 1) result ≡ own_numbers self.now }
    {
        let [a, b, c, d, e, f] = self.links();
        let mut numbers = [
            a.processor,
            b.processor,
            c.processor,
            d.processor,
            e.processor,
            f.processor,
            self.own,
        ];
        numbers[self.count as usize] = self.own;
        numbers
    }

    // Has the own link sealed, which is the last of these processors. At most eight numbers always make a text.
    fn seal<S: Scheme>(&self, numbers: &[u8], scheme: &mut S) -> Result<u32, Refusal>
        requires { length numbers.now ≤ 8 }
        ensures answer { result ≡ answered (S.Scheme.meaning scheme.old) self.now.own (text_for self.now.item self.now.value numbers.now) (given result) }
        ensures after { S.Scheme.meaning scheme.new ≡ signed (S.Scheme.meaning scheme.old) self.now.own (text_for self.now.item self.now.value numbers.now) (given result) }
    {
        // The longest text's room: no heap here.
        let mut text = [0; LONGEST_TEXT];
        match link_text(self.item, self.value, numbers, &mut text) {
            Some(size) => scheme.sign(self.own, &text[..size]),
            None => Err(Refusal::Frame),
        }
    }

    // Seals and writes; row 30 for more than six links, after which nothing is owed.
    fn send<S: Scheme>(
        &self,
        scheme: &mut S,
        out: &mut [u8; LONGEST_FRAME],
    ) -> Result<usize, Refusal>
        ensures { (z : ℕ) × ((result, S.Scheme.meaning scheme.new, out.new) ≡ sent z self.now (S.Scheme.meaning scheme.old) out.old) × IfOk result (λ n. decode (take n out.new) ≡ Ok (frame_of self.now z)) }
    {
        if self.count > 6 {
            return Err(Refusal::Frame);
        }
        let count = usize::from(self.count) + 1;
        let numbers = self.own_numbers();
        let seal = self.seal(&numbers[..count], scheme)?;
        let links = self.own_links(seal);
        write(out, self.item, self.value, &links[..count])
    }
}

// Seals the broadcast, writes its frame to the front of the buffer and answers the frame's length.
// A refusal alters nothing, and hands the broadcast back. The caller lends the bytes: no heap here.
pub fn relay<S: Scheme>(
    owed: Owed,
    scheme: &mut S,
    out: &mut [u8; LONGEST_FRAME],
) -> Result<usize, Unsent>
    ensures { (z : ℕ) × ((result, S.Scheme.meaning scheme.new, out.new) ≡ relayed z owed (S.Scheme.meaning scheme.old) out.old) × IfOk result (λ n. decode (take n out.new) ≡ Ok (frame_of owed z)) }
{
    match owed.send(scheme, out) {
        Ok(size) => {
            forgo(owed);
            Ok(size)
        }
        Err(refusal) => Err(Unsent { refusal, owed }),
    }
}
