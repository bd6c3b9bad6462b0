// The calls that set markers, spans and window. Each answers the record after it, or the fault.
ghost use Rattle.std.specs.Prelude.{◌≡◌, ℕ, ◌<◌, ◌≤◌, IfOk, None, slice_index};
ghost use Rattle.places.specs.Calls.{fresh, with_marker, with_markers, protected, unprotected, unguarded, narrowed, widened};
ghost use Rattle.places.specs.Checks.{marker_check, set_check, range_check, protect_check, unprotect_check};
ghost use Rattle.places.specs.Model.{model, modelled};
ghost use Rattle.places.specs.Refusals.{outcome};

use crate::checks::check_marker;
use crate::faults::{Fault, Refusal, Refuses};
use crate::markers::markers_within;
use crate::record::{Places, Span};
use crate::spans::Spans;

// The most spans that a text has.
pub const MAX_SPANS: usize = 8;

impl Places {
    // All markers at 0, no span, no narrowing.
    pub fn new(len: usize) -> Places
        ensures { model result ≡ fresh len }
    {
        Places {
            len,
            markers: [0; 16],
            spans: Spans::new(),
            before: 0,
            behind: 0,
        }
    }

    // Where a marker stands. The question has no place of its own, so its fault has 0.
    pub fn marker(self, number: usize) -> Result<usize, Fault>
        ensures { result ≡ outcome (marker_check number) 0 (slice_index self.markers number) }
    {
        check_marker(number, 0)?;
        Ok(self.markers[number])
    }

    // Puts a marker at p: argument, then place.
    pub fn set(mut self, number: usize, p: usize) -> Result<Places, Fault>
        ensures value { modelled result ≡ outcome (set_check self.len number p) p (with_marker number p (model self)) }
        ensures done { IfOk result (λ next. (set_check self.len number p ≡ None) × (model next ≡ with_marker number p (model self))) }
    {
        check_marker(number, p)?;
        if p > self.len {
            return Err(Refusal::Place.at(p));
        }
        self.markers[number] = p;
        Ok(self)
    }

    // Adds a span: place, then span table.
    pub fn protect(mut self, s: usize, e: usize) -> Result<Places, Fault>
        ensures value { modelled result ≡ outcome (protect_check (model self) s e) s (protected s e (model self)) }
        ensures done { IfOk result (λ next. (protect_check (model self) s e ≡ None) × (model next ≡ protected s e (model self))) }
    {
        self.check_range(s, e)?;
        if s == e {
            return Err(Refusal::Place.at(s));
        }
        if self.spans.len() >= MAX_SPANS {
            return Err(Refusal::SpanTable.at(s));
        }
        self.spans.push(Span { start: s, end: e });
        Ok(self)
    }

    // Removes all spans that lie wholly in s to e: place, then presence.
    pub fn unprotect(mut self, s: usize, e: usize) -> Result<Places, Fault>
        ensures value { modelled result ≡ outcome (unprotect_check (model self) s e) s (unprotected s e (model self)) }
        ensures done { IfOk result (λ next. (unprotect_check (model self) s e ≡ None) × (model next ≡ unprotected s e (model self))) }
    {
        self.check_range(s, e)?;
        if !self.spans.any_inside(s, e) {
            return Err(Refusal::Presence.at(s));
        }
        self.spans = self.spans.without_inside(s, e);
        Ok(self)
    }

    // Removes every span.
    pub(crate) fn unguard(mut self) -> Places
        ensures { model result ≡ unguarded (model self) }
    {
        self.spans = Spans::new();
        self
    }

    // Fixes the window's counts: s bytes before it, and the length less e behind it.
    pub fn narrow(mut self, s: usize, e: usize) -> Result<Places, Fault>
        ensures value { modelled result ≡ outcome (range_check self.len s e) s (narrowed s e (model self)) }
        ensures done { IfOk result (λ next. (range_check self.len s e ≡ None) × (model next ≡ narrowed s e (model self))) }
    {
        self.check_range(s, e)?;
        self.before = s;
        self.behind = self.len - e;
        Ok(self)
    }

    // Sets both counts to 0.
    pub fn widen(mut self) -> Places
        ensures { model result ≡ widened (model self) }
    {
        self.before = 0;
        self.behind = 0;
        self
    }

    // Puts sixteen places back as the markers, each cut to the length; those taken from a record of
    // the same length stand as they were.
    #[tactic(auto, using(crate::proofs::Kept::within_len, crate::proofs::Kept::within_whole))]
    pub fn with_markers(mut self, markers: [usize; 16]) -> Places
        ensures value { model result ≡ with_markers markers (model self) }
        ensures whole { ((k : ℕ) → k < 16 → slice_index markers k ≤ self.len) → (model result).markers ≡ markers }
    {
        self.markers = markers_within(self.len, markers);
        self
    }
}
