// One read-only span: how an edit carries it, and whether an edit meets it.
ghost use Rattle.std.specs.Prelude.{◌≡◌, ◌+◌, ◌^◌, ◌<◌, ◌≤◌};
ghost use Rattle.places.specs.Edits.{growth};
ghost use Rattle.places.specs.Spans.{span_after, call_meets, undo_meets, insertion_meets, deletion_meets, meets, inside};

use crate::edit::{Edit, Origin};
use crate::record::Span;

impl Span {
    pub(crate) fn after(self, edit: Edit) -> Span
        requires forward { self.start ≤ self.end }
        requires fits { self.end + growth edit < 2 ^ 64 }
        ensures { result ≡ span_after edit self }
    {
        match edit {
            // at or behind the place of an insertion it moves with its text
            Edit::Insertion { place, count } if place <= self.start => Span {
                start: self.start + count,
                end: self.end + count,
            },
            // behind a deleted range too
            Edit::Deletion { place, count } if place <= self.start && count <= self.start - place =>
                Span {
                    start: self.start - count,
                    end: self.end - count,
                },
            // an earlier one stays
            _ => self,
        }
    }

    // An insert call meets a span that has its place inside. The rule of an undo says the same today,
    // and each stands in its own words, so that one can change alone.
    fn meets_call(self, p: usize) -> bool
        ensures { result ≡ call_meets p self }
    {
        self.start < p && p < self.end
    }

    // An insertion that an undo makes meets a span that has its place inside.
    fn meets_undo(self, p: usize) -> bool
        ensures { result ≡ undo_meets p self }
    {
        self.start < p && self.end > p
    }

    fn meets_insertion(self, origin: Origin, p: usize) -> bool
        ensures { result ≡ insertion_meets origin p self }
    {
        match origin {
            Origin::Call => self.meets_call(p),
            Origin::Undo => self.meets_undo(p),
        }
    }

    // A deletion meets a span that it shares a byte with.
    fn meets_deletion(self, p: usize, n: usize) -> bool
        ensures { result ≡ deletion_meets p n self }
    {
        n > 0 && p < self.end && (self.start < p || self.start - p < n)
    }

    pub(crate) fn meets(self, origin: Origin, edit: Edit) -> bool
        ensures { result ≡ meets origin edit self }
    {
        match edit {
            Edit::Insertion { place, .. } => self.meets_insertion(origin, place),
            Edit::Deletion { place, count } => self.meets_deletion(place, count),
        }
    }

    // Whether it lies wholly in the range from s to e.
    pub(crate) fn inside(self, s: usize, e: usize) -> bool
        ensures { result ≡ inside s e self }
    {
        s <= self.start && self.end <= e
    }
}
