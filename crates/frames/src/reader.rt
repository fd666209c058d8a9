// Reads a frame.
ghost use Rattle.std.specs.Prelude.{◌≡◌, IfOk};
ghost use Rattle.frames.specs.Bytes.{decode, encode};
ghost use Rattle.frames.specs.Views.{fields_of, view_of, Whole};

use crate::frame::Frame;
use refusals::Refusal;

// Reads the frame that the bytes are, all of them; row 30 where its number of links or its length is wrong.
pub fn read(bytes: &[u8]) -> Result<Frame<'_>, Refusal>
    ensures fields { view_of result ≡ decode bytes.now }
    ensures whole { IfOk result (λ f. Whole (fields_of f)) }
    ensures back { IfOk result (λ f. encode (fields_of f) ≡ bytes.now) }
{
    let [item, a, b, c, d, e, f, g, h, s, links @ ..] = bytes else {
        return Err(Refusal::Frame);
    };
    let count = usize::from(*s);
    if !(1..=8).contains(&count) || links.len() != 5 * count {
        return Err(Refusal::Frame);
    }
    let value = u64::from_be_bytes([*a, *b, *c, *d, *e, *f, *g, *h]);
    Ok(Frame {
        item: *item,
        value,
        links,
    })
}
