// Writes a frame.
ghost use Rattle.std.specs.Prelude.{◌≡◌, ◌^◌, ◌<◌, ◌≤◌, ◌++◌, length, take, IfOk, Ok};
ghost use Rattle.std.specs.List.{flat_map};
ghost use Rattle.frames.specs.Bytes.{link_bytes, fields, header, placed, size_of, Small, written, writes, decode};

use crate::link::Link;
use refusals::Refusal;

// Writes one link into its five bytes.
fn write_link(part: &mut [u8], link: Link)
    requires { length part.old ≡ 5 }
    ensures small { (link.processor < 256) × (link.seal < 2 ^ 32) }
    ensures bytes { part.new ≡ link_bytes link }
{
    part.copy_from_slice(&<[u8; 5]>::from(link));
}

// Writes the first ten bytes.
pub(crate) fn write_header(buf: &mut [u8], item: u8, value: u64, count: u8)
    requires { 10 ≤ length buf.old }
    ensures { buf.new ≡ placed (header item value count) buf.old }
{
    buf[0] = item;
    buf[1..9].copy_from_slice(&value.to_be_bytes());
    buf[9] = count;
}

// Writes the links, each into its own part of the buffer.
fn write_links(buf: &mut [u8], links: &[Link])
    requires few { length links.now ≤ 8 }
    requires room { size_of (length links.now) ≤ length buf.old }
    ensures small { Small links.now }
    ensures bytes { buf.new ≡ placed (take 10 buf.old ++ flat_map link_bytes links.now) buf.old }
{
    for (k, link) in links.iter().enumerate() {
        let at = 10 + 5 * k;
        write_link(&mut buf[at..at + 5], *link);
    }
}

// Writes the frame into the front of the buffer, and answers its length; row 30, and nothing written, where the
// links are none or more than eight or the buffer is too short.
// Item and value stand apart, as every caller has them: a struct of both would be made for one call.
pub fn write(buf: &mut [u8], item: u8, value: u64, links: &[Link]) -> Result<usize, Refusal>
    ensures answer { result ≡ writes buf.old (fields item value links.now) }
    ensures bytes { buf.new ≡ written buf.old (fields item value links.now) }
    ensures again { IfOk result (λ n. decode (take n buf.new) ≡ Ok (fields item value links.now)) }
{
    let count = links.len();
    if !(1..=8).contains(&count) {
        return Err(Refusal::Frame);
    }
    let size = 10 + 5 * count;
    if buf.len() < size {
        return Err(Refusal::Frame);
    }
    write_header(buf, item, value, count as u8);
    write_links(buf, links);
    Ok(size)
}
