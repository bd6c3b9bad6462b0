// Where the entries of a group stand among all, and what is read there.
ghost use Rattle.std.specs.Prelude.{◌≡◌, ℕ, ◌-◌, ◌<◌, ◌≤◌, length, Some, None, vec_len, slice_index_or};
ghost use Rattle.std.specs.List.{slice_get};
ghost use Rattle.undo_list.specs.Groups.{group_at};
ghost use Rattle.undo_list.specs.Spell.{entries_of, kept_count, held, spell, nothing};
ghost use Rattle.undo_list.specs.View.{view};

use crate::list::UndoList;
use crate::list::reads::Reading;
use std::ops::Range;

impl UndoList {
    // The numbers that the entries of a group have among all.
    pub(super) fn group_range(&self, group: usize) -> Range<usize>
        ensures forward { result.start ≤ result.end }
        ensures within { result.end ≤ vec_len self.now.stored }
        ensures past { (i : ℕ) → result.end - result.start ≤ i → slice_get (group_at (view self.now) group) i ≡ None }
        ensures found { (i : ℕ) → i < result.end - result.start → slice_get (group_at (view self.now) group) i ≡ Some (slice_index_or (spell (entries_of self.now.stored.items) self.now.kept.items) (result.end - 1 - i) nothing) }
        ensures len { length (group_at (view self.now) group) ≡ result.end - result.start }
    {
        let closed = self.ends.len();
        if group > closed {
            return 0..0;
        }
        let start = self.start_of(group);
        if group == closed {
            return start..self.stored.len();
        }
        start..self.ends[group]
    }

    // Entry number i of all, with its kept bytes.
    pub(super) fn reading(&self, i: usize) -> Reading<'_>
        requires { i < vec_len self.now.stored }
        ensures value { held result.entry result.kept.now ≡ slice_index_or (spell (entries_of self.now.stored.items) self.now.kept.items) i nothing }
        ensures long { length result.kept.now ≡ kept_count result.entry }
    {
        let from = self.kept_before(i);
        let entry = self.stored[i].entry;
        let to = from + entry.kept_count();
        Reading {
            entry,
            kept: &self.kept[from..to],
        }
    }
}
