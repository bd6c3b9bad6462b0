// The spans of a record, in the order in which they were added.
ghost use Rattle.std.specs.Prelude.{◌≤◌};

use crate::calls::MAX_SPANS;
use crate::edit::{Edit, Origin};
use crate::record::Span;

// At most eight spans. The slots are an array by value, and no vector of a library, since a record of
// places is a plain value that is copied, with no heap. Clauses read the spans by `spans_of`, and not by
// a model of the type: a type whose model forgets the free slots cannot be copied.
#[derive(Clone, Copy, PartialEq, Eq, Debug)]
pub struct Spans {
    // the spans are the first `count` of these
    slots: [Span; MAX_SPANS],
    count: usize,
    ghost few: { count ≤ 8 },
}

impl Spans {
    ghost use Rattle.std.specs.Prelude.{◌≡◌, ◌+◌, ◌^◌, ◌<◌, not, [], ◌∷◌, ◌++◌, length, map, filter};
    ghost use Rattle.std.specs.List.{All};
    ghost use Rattle.places.specs.Edits.{growth};
    ghost use Rattle.places.specs.Slots.{spans_of};
    ghost use Rattle.places.specs.Spans.{span_after, meets, inside, some_span};

    pub(crate) fn new() -> Spans
        ensures { spans_of result ≡ [] }
    {
        Spans {
            slots: [Span { start: 0, end: 0 }; MAX_SPANS],
            count: 0,
        }
    }

    pub fn as_slice(&self) -> &[Span]
        ensures { result.now ≡ spans_of self.now }
    {
        &self.slots[..self.count]
    }

    pub fn len(&self) -> usize
        ensures { result ≡ length (spans_of self.now) }
    {
        self.as_slice().len()
    }

    pub(crate) fn push(&mut self, span: Span)
        requires free { length (spans_of self.old) < 8 }
        ensures { spans_of self.new ≡ spans_of self.old ++ span ∷ [] }
    {
        self.slots[self.count] = span;
        self.count += 1;
    }

    // Leaves each span as the edit carries it, in its slot: at every edit a record of places is carried, and
    // to make the slots anew takes a third as long again. By number, since over the slots in use, by
    // `iter_mut`, the proof did not close.
    pub(crate) fn carry(&mut self, edit: Edit)
        requires { All (λ span. (span.start ≤ span.end) × (span.end + growth edit < 2 ^ 64)) (spans_of self.old) }
        ensures { spans_of self.new ≡ map (span_after edit) (spans_of self.old) }
    {
        let count = self.count;
        for i in 0..count {
            self.slots[i] = self.slots[i].after(edit);
        }
    }

    // Whether the edit meets one of the spans.
    pub(crate) fn any_meets(&self, origin: Origin, edit: Edit) -> bool
        ensures { result ≡ some_span (meets origin edit) (spans_of self.now) }
    {
        self.as_slice().iter().any(|span| span.meets(origin, edit))
    }

    // Whether one of the spans lies wholly in the range from s to e.
    pub(crate) fn any_inside(&self, s: usize, e: usize) -> bool
        ensures { result ≡ some_span (inside s e) (spans_of self.now) }
    {
        self.as_slice().iter().any(|span| span.inside(s, e))
    }

    // The spans that do not lie wholly in the range from s to e, in their order.
    pub(crate) fn without_inside(self, s: usize, e: usize) -> Spans
        ensures { spans_of result ≡ filter (λ span. not (inside s e span)) (spans_of self) }
    {
        let mut others = Spans::new();
        for span in self.as_slice() {
            if !span.inside(s, e) {
                others.push(*span);
            }
        }
        others
    }
}
