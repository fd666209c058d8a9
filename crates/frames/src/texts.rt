// The text that a link seals.
ghost use Rattle.std.specs.Prelude.{◌≡◌, ◌≤◌, length, take, MatchOption, nat_le};
ghost use Rattle.frames.specs.Texts.{text_answer, text_for, text_left};

use crate::writer::write_header;

// The header and eight processor numbers.
pub const LONGEST_TEXT: usize = 18;

// Writes the text that the last of these processors seals to the front of the buffer, and answers its length; nothing
// for more than eight processors. The caller lends the bytes: no heap here. Item and value stand apart, as
// every caller has them.
pub fn link_text(
    item: u8,
    value: u64,
    processors: &[u8],
    out: &mut [u8; LONGEST_TEXT],
) -> Option<usize>
    ensures answer { result ≡ text_answer (nat_le (length processors.now) 8) (length processors.now) }
    ensures bytes { out.new ≡ text_left (nat_le (length processors.now) 8) (text_for item value processors.now) out.old }
    ensures front { MatchOption result (out.new ≡ out.old) (λ n. (n ≤ 18) × (take n out.new ≡ text_for item value processors.now)) }
{
    let count = processors.len();
    if count > 8 {
        return None;
    }
    write_header(out, item, value, count as u8);
    out[10..10 + count].copy_from_slice(processors);
    Some(10 + count)
}
