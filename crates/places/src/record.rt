// The markers, the spans and the window of a text, each within the text's length.
ghost use Rattle.std.specs.Prelude.{ℕ, ◌+◌, ◌<◌, ◌≤◌, slice_index};
ghost use Rattle.std.specs.List.{All};
ghost use Rattle.places.specs.Slots.{spans_of};

use crate::spans::Spans;

// The bytes from `start` up to `end`.
#[derive(Clone, Copy, PartialEq, Eq, Debug)]
pub struct Span {
    pub start: usize,
    pub end: usize,
}

// No value of this type has a marker, a span or a window end beyond its own length.
#[derive(Clone, Copy)]
pub struct Places {
    // the text's length
    pub len: usize,
    pub markers: [usize; 16],
    pub spans: Spans,
    // the window leaves out so many bytes at the text's front and at its end
    pub before: usize,
    pub behind: usize,
    ghost marked: { (k : ℕ) → k < 16 → slice_index markers k ≤ len },
    ghost spanned: { All (λ span. (span.start < span.end) × (span.end ≤ len)) (spans_of spans) },
    ghost window: { before + behind ≤ len },
}
