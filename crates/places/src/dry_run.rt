// A list of edits, put to a check on a copy of the record before any text is touched: each edit at
// its turn, on what the edits before it leave.
ghost use Rattle.std.specs.Prelude.{◌≡◌, ◌+◌, ◌^◌, ◌<◌, OnOk};
ghost use Rattle.places.specs.DryRun.{dry_run, edit_check, sight, put_to_all, EachFits, growth_of_all};
ghost use Rattle.places.specs.Edits.{place_of};
ghost use Rattle.places.specs.Model.{model};
ghost use Rattle.store.specs.Edits.{answer};

use crate::edit::{Check, Edit, Origin};
use crate::faults::Fault;
use crate::record::Places;

impl Places {
    // Place to all the edits, then window to all, then spans to all: the first fault answers. Where all
    // pass, and no sum is too large for the machine, the record is carried through each of them.
    #[tactic(auto, using(crate::proofs::Run::where_passed, crate::proofs::Run::each_fits))]
    pub fn dry_run(self, origin: Origin, edits: &[Edit]) -> Result<(), Fault>
        ensures value { result ≡ dry_run origin (model self) edits.now }
        ensures carried { OnOk result (self.len + growth_of_all edits.now < 2 ^ 64 → EachFits (model self) edits.now) }
    {
        self.check_all(Check::Place, edits)?;
        self.check_all(Check::Window, edits)?;
        self.check_all(Check::Spans(origin), edits)
    }

    // Puts the check to all the edits: the first refused answers, with its own place. A closure in place
    // of the check's name would need a `requires`, and a public function has none.
    pub fn check_all(self, check: Check, edits: &[Edit]) -> Result<(), Fault>
        ensures { result ≡ put_to_all (edit_check check) (sight check (model self)) edits.now }
    {
        let mut copy = self.sight(check);
        for edit in edits {
            copy.check_edit(check, *edit)?;
            copy = copy.after(*edit);
        }
        Ok(())
    }

    // What the check goes by. Counts and spans, whose checks come later, are left out, so that an edit
    // that they refuse does not stand in the way of carrying the length to the next one.
    fn sight(self, check: Check) -> Places
        ensures { model result ≡ sight check (model self) }
    {
        match check {
            Check::Place => self.unguard().widen(),
            Check::Window => self.unguard(),
            Check::Spans(_) => self,
        }
    }

    // Puts the check to one edit.
    fn check_edit(self, check: Check, edit: Edit) -> Result<(), Fault>
        ensures { result ≡ answer (edit_check check (model self) edit) (place_of edit) }
    {
        match check {
            Check::Place => self.check_place(edit),
            Check::Window => self.check_window(edit),
            Check::Spans(origin) => self.check_spans(origin, edit),
        }
    }
}
