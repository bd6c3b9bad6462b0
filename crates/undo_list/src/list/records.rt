// What is recorded, and the closing of the open group.
ghost use Rattle.std.specs.Prelude.{◌≡◌, ◌+◌, ◌≤◌, [], length, None, OnOk};
ghost use Rattle.store.specs.Edits.{answer, unless};
ghost use Rattle.undo_list.specs.Groups.{PutIn, Took, entries_in, bytes_in, groups_in, recorded, after_close};
ghost use Rattle.undo_list.specs.Limits.{entry_check, insertion_check, deletion_check, group_check, Recorded, Started};
ghost use Rattle.undo_list.specs.View.{view};

use crate::limits::{Counts, check_count, check_limits};
use crate::list::UndoList;
use crate::list::pushes::{deletion, insertion};
use places::faults::{Fault, Refusal, Refuses};
use places::notes::Notes;

impl UndoList {
    // What is held, with the groups that a check counts.
    fn held(&self, groups: usize) -> Counts
        ensures entries { result.entries ≡ entries_in (view self.now) }
        ensures bytes { result.bytes ≡ bytes_in (view self.now) }
        ensures groups { result.groups ≡ groups }
    {
        Counts {
            entries: self.entries(),
            bytes: self.bytes(),
            groups,
        }
    }

    // Undo list: one more entry, which keeps so many bytes, passes no limit.
    pub fn check_entry(&self, bytes: usize, place: usize) -> Result<(), Fault>
        ensures value { result ≡ answer (entry_check (view self.now) bytes) place }
        ensures passed { OnOk result ((entry_check (view self.now) bytes ≡ None) × (entries_in (view self.now) + 1 ≤ 512) × (bytes_in (view self.now) + bytes ≤ 16384) × (length (view self.now).closed + 1 ≤ 256)) }
    {
        let held = self.held(self.closed_groups());
        let more = Counts {
            entries: 1,
            bytes,
            groups: 1,
        };
        check_limits(held, more, place)
    }

    // Records an insertion of n bytes at p: count, then undo list.
    pub fn record_insertion(&mut self, p: usize, n: usize) -> Result<(), Fault>
        ensures value { result ≡ answer (insertion_check (view self.old) n) p }
        ensures after { view self.new ≡ unless (insertion_check (view self.old) n) (recorded (PutIn p n) (view self.old)) (view self.old) }
        ensures done { OnOk result (Recorded (insertion_check (view self.old) n) (view self.old) (PutIn p n) 0 (view self.new)) }
    {
        check_count(n, p)?;
        self.check_entry(0, p)?;
        self.push(insertion(p, n), &[]);
        Ok(())
    }

    // Records a deletion at p of the bytes, with its notes: count, then undo list.
    pub fn record_deletion(&mut self, p: usize, bytes: &[u8], notes: Notes) -> Result<(), Fault>
        ensures value { result ≡ answer (deletion_check (view self.old) (length bytes.now) notes.count) p }
        ensures after { view self.new ≡ unless (deletion_check (view self.old) (length bytes.now) notes.count) (recorded (Took p bytes.now notes.distances) (view self.old)) (view self.old) }
        ensures done { OnOk result (Recorded (deletion_check (view self.old) (length bytes.now) notes.count) (view self.old) (Took p bytes.now notes.distances) (length bytes.now) (view self.new)) }
    {
        check_count(bytes.len(), p)?;
        if notes.count != bytes.len() {
            return Err(Refusal::Count.at(p));
        }
        self.check_entry(bytes.len(), p)?;
        self.push(deletion(p, notes), bytes);
        Ok(())
    }

    // Closes the open group, if there is one.
    pub fn close(&mut self)
        ensures view { view self.new ≡ after_close (view self.old) }
        ensures entries { entries_in (view self.new) ≡ entries_in (view self.old) }
        ensures bytes { bytes_in (view self.new) ≡ bytes_in (view self.old) }
        ensures groups { length (view self.new).closed ≡ groups_in (view self.old) }
        ensures opened { (view self.new).opened ≡ [] }
    {
        if self.is_open() {
            self.push_end();
        }
    }

    // Undo list: a group of its own with n entries, which keep k bytes, passes no limit.
    pub fn check_group(&self, n: usize, k: usize, place: usize) -> Result<(), Fault>
        ensures value { result ≡ answer (group_check (view self.now) n k) place }
        ensures passed { OnOk result ((group_check (view self.now) n k ≡ None) × (entries_in (view self.now) + n ≤ 512) × (bytes_in (view self.now) + k ≤ 16384) × (groups_in (view self.now) + 1 ≤ 256)) }
    {
        let held = self.held(self.groups());
        let more = Counts {
            entries: n,
            bytes: k,
            groups: 1,
        };
        check_limits(held, more, place)
    }

    // Closes the open group, so that what is recorded next is a group of its own: n entries, which
    // keep k bytes, have room.
    pub fn start_group(&mut self, n: usize, k: usize, place: usize) -> Result<(), Fault>
        ensures value { result ≡ answer (group_check (view self.old) n k) place }
        ensures after { view self.new ≡ unless (group_check (view self.old) n k) (after_close (view self.old)) (view self.old) }
        ensures done { OnOk result (Started (view self.old) n k (view self.new)) }
    {
        self.check_group(n, k, place)?;
        self.close();
        Ok(())
    }
}
