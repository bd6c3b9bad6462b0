// A text store that keeps the free memory as a gap in the text, at the place of the last edit, so
// that an edit nearby moves few bytes.
#![tactic(auto)]

pub mod buffer;

pub use buffer::GapBuffer;
