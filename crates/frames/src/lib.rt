// Frames: a header of ten bytes, and one to eight links of five bytes each.
#![tactic(auto)]

mod frame;
mod frames;
mod link;
mod reader;
mod texts;
mod writer;

pub use frame::Frame;
pub use link::Link;
pub use reader::read;
pub use texts::{LONGEST_TEXT, link_text};
pub use writer::write;
