// The checks that a record of places puts to a call or an edit, each with its refusal.
ghost use Rattle.std.specs.Prelude.{◌≡◌, ◌+◌, ◌-◌, ◌≤◌, true, false, OnOk};
ghost use Rattle.places.specs.Checks.{marker_check, range_check, place_check, in_window, window_check, region_check, span_check};
ghost use Rattle.places.specs.Edits.{place_of, reach};
ghost use Rattle.places.specs.Model.{model};
ghost use Rattle.store.specs.Edits.{answer};
ghost use Rattle.places.specs.Spans.{meets, some_span};

use crate::edit::{Edit, Origin};
use crate::faults::{Fault, Refusal, Refuses};
use crate::record::Places;

// The markers are numbered 0 to 15.
pub const LAST_MARKER: usize = 15;

// Argument: the marker's number. The question for a marker has no place.
pub fn check_marker(number: usize, place: usize) -> Result<(), Fault>
    ensures value { result ≡ answer (marker_check number) place }
    ensures passed { OnOk result (number ≤ 15) }
{
    if number > LAST_MARKER {
        return Err(Refusal::Argument.at(place));
    }
    Ok(())
}

impl Places {
    // Place: a range from s to e runs forward, and does not end past the length. It comes as two numbers,
    // and not as a span, since it is here that a range that runs backward is refused.
    pub fn check_range(self, s: usize, e: usize) -> Result<(), Fault>
        ensures value { result ≡ answer (range_check self.len s e) s }
        ensures passed { OnOk result ((s ≤ e) × (e ≤ self.len)) }
    {
        if s > e || e > self.len {
            return Err(Refusal::Place.at(s));
        }
        Ok(())
    }

    // Place: an edit stays within the length.
    pub fn check_place(self, edit: Edit) -> Result<(), Fault>
        ensures value { result ≡ answer (place_check (model self) edit) (place_of edit) }
        ensures passed { OnOk result (reach edit ≤ self.len) }
    {
        if edit.reaches_past(self.len) {
            return Err(Refusal::Place.at(edit.place()));
        }
        Ok(())
    }

    // Where the window ends.
    fn window_end(self) -> usize
        ensures { result ≡ self.len - self.behind }
    {
        self.len - self.behind
    }

    pub(crate) fn in_window(self, edit: Edit) -> bool
        ensures { result ≡ in_window (model self) edit }
    {
        self.before <= edit.place() && !edit.reaches_past(self.window_end())
    }

    // Window: an edit lies between the counts, edges included.
    pub fn check_window(self, edit: Edit) -> Result<(), Fault>
        ensures value { result ≡ answer (window_check (model self) edit) (place_of edit) }
        ensures passed { OnOk result (in_window (model self) edit ≡ true) }
    {
        if !self.in_window(edit) {
            return Err(Refusal::Window.at(edit.place()));
        }
        Ok(())
    }

    // Window: a region from s to e lies between the counts, edges included.
    pub fn check_region(self, s: usize, e: usize) -> Result<(), Fault>
        ensures value { result ≡ answer (region_check (model self) s e) s }
        ensures passed { OnOk result ((self.before ≤ s) × (e + self.behind ≤ self.len)) }
    {
        if s < self.before || e > self.window_end() {
            return Err(Refusal::Window.at(s));
        }
        Ok(())
    }

    // Spans: an edit meets none.
    pub fn check_spans(self, origin: Origin, edit: Edit) -> Result<(), Fault>
        ensures value { result ≡ answer (span_check (model self) origin edit) (place_of edit) }
        ensures passed { OnOk result (some_span (meets origin edit) (model self).spans ≡ false) }
    {
        if self.spans.any_meets(origin, edit) {
            return Err(Refusal::Spans.at(edit.place()));
        }
        Ok(())
    }
}
