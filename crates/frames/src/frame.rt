// A frame that `read` made: its header taken apart, and its links as they lie in the buffer.
ghost use Rattle.std.specs.Prelude.{◌≤◌, length};

// At most eight links, of five bytes each. No model: a frame is copied, and a view forgets bytes past the last link.
#[derive(Clone, Copy, Debug, PartialEq, Eq)]
pub struct Frame<'a> {
    pub(crate) item: u8,
    pub(crate) value: u64,
    pub(crate) links: &'a [u8],
    ghost few: { length links.now ≤ 40 },
}
