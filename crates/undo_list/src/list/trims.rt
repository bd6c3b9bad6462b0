// Trim, which drops the oldest closed groups and frees what they filled; and the cut back of the
// open group to what it was.
ghost use Rattle.std.specs.Prelude.{◌≡◌, ◌-◌, ◌≤◌, min, length, OnOk};
ghost use Rattle.store.specs.Edits.{answer, unless};
ghost use Rattle.undo_list.specs.Groups.{entries_in, bytes_in, trimmed, cut};
ghost use Rattle.undo_list.specs.Limits.{trim_check, Trimmed};
ghost use Rattle.undo_list.specs.View.{view};

use crate::fronts::{drop_ends, drop_held};
use crate::limits::MAX_GROUPS;
use crate::list::UndoList;
use places::faults::{Fault, Refusal, Refuses};

impl UndoList {
    // Drops the k oldest closed groups: argument, then presence.
    pub fn trim(&mut self, k: usize) -> Result<(), Fault>
        ensures value { result ≡ answer (trim_check (view self.old) k) 0 }
        ensures after { view self.new ≡ unless (trim_check (view self.old) k) (trimmed k (view self.old)) (view self.old) }
        ensures done { OnOk result (Trimmed (view self.old) k (view self.new)) }
    {
        if k == 0 || k > MAX_GROUPS {
            return Err(Refusal::Argument.at(0));
        }
        if k > self.closed_groups() {
            return Err(Refusal::Presence.at(0));
        }
        self.drop_groups(k);
        Ok(())
    }

    fn drop_groups(&mut self, k: usize)
        requires { k ≤ length (view self.old).closed }
        ensures view { view self.new ≡ trimmed k (view self.old) }
        ensures opened { (view self.new).opened ≡ (view self.old).opened }
        ensures groups { length (view self.new).closed ≡ length (view self.old).closed - k }
        ensures entries { entries_in (view self.new) ≤ entries_in (view self.old) }
        ensures bytes { bytes_in (view self.new) ≤ bytes_in (view self.old) }
    {
        let entries = self.start_of(k);
        let bytes = self.kept_before(entries);
        drop_held(&mut self.stored, &mut self.kept, entries, bytes);
        drop_ends(&mut self.ends, k, entries);
    }

    // Cuts the open group back, with the bytes that it keeps, until so many entries are left in
    // all. The closed groups stay.
    pub fn cut_back(&mut self, entries: usize)
        ensures view { view self.new ≡ cut (entries_in (view self.old) - entries) (view self.old) }
        ensures closed { (view self.new).closed ≡ (view self.old).closed }
        ensures entries { entries_in (view self.new) ≡ entries_in (view self.old) - min (entries_in (view self.old) - entries) (length (view self.old).opened) }
        ensures bytes { bytes_in (view self.new) ≤ bytes_in (view self.old) }
    {
        let newest = self.entries().saturating_sub(entries);
        self.drop_newest(newest);
    }

    // Drops the newest n entries of the open group.
    fn drop_newest(&mut self, n: usize)
        ensures view { view self.new ≡ cut n (view self.old) }
        ensures closed { (view self.new).closed ≡ (view self.old).closed }
        ensures entries { entries_in (view self.new) ≡ entries_in (view self.old) - min n (length (view self.old).opened) }
        ensures bytes { bytes_in (view self.new) ≤ bytes_in (view self.old) }
    {
        let closed = self.last_end();
        let left = self.stored.len().saturating_sub(n).max(closed);
        let bytes = self.kept_before(left);
        self.stored.truncate(left);
        self.kept.truncate(bytes);
    }
}
