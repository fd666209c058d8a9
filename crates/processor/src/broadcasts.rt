// The broadcasts that a part owes.
ghost use Rattle.std.specs.Prelude.{◌≡◌, ◌-◌, ◌≤◌, [], slice_index_or};
ghost use Rattle.frames.specs.Texts.{no_link};
ghost use Rattle.frames.specs.Views.{fields_of};
ghost use Rattle.processor.specs.Broadcasts.{owed_for};

use crate::owed::Owed;
use frames::{Frame, Link};

// What lies in the plain fields past the last link.
const NO_LINK: Link = Link {
    processor: 0,
    seal: 0,
};

// Link k, counted from 1, and a blank past the last.
fn link_at(frame: &Frame<'_>, k: u8) -> Link
    requires { 1 ≤ k }
    ensures { result ≡ slice_index_or (fields_of frame.now).links (k - 1) no_link }
{
    frame.link(k).unwrap_or(NO_LINK)
}

impl Owed {
    // The sender's broadcast, with no links so far.
    pub(crate) fn first(item: u8, value: u64, own: u8) -> Owed
        ensures { result ≡ owed_for item value own [] }
    {
        Owed {
            item,
            value,
            own,
            count: 0,
            first: NO_LINK,
            second: NO_LINK,
            third: NO_LINK,
            fourth: NO_LINK,
            fifth: NO_LINK,
            sixth: NO_LINK,
        }
    }

    // The broadcast that passes a frame on.
    pub(crate) fn next(frame: &Frame<'_>, own: u8) -> Owed
        ensures { result ≡ owed_for (fields_of frame.now).item (fields_of frame.now).value own (fields_of frame.now).links }
    {
        Owed {
            item: frame.item(),
            value: frame.value(),
            own,
            count: frame.count(),
            first: link_at(frame, 1),
            second: link_at(frame, 2),
            third: link_at(frame, 3),
            fourth: link_at(frame, 4),
            fifth: link_at(frame, 5),
            sixth: link_at(frame, 6),
        }
    }
}
