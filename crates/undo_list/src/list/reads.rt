// What an undo list answers of its groups and entries.
ghost use Rattle.std.specs.Prelude.{◌≡◌, length, IfSome};
ghost use Rattle.std.specs.List.{slice_get};
ghost use Rattle.std.specs.Option.{option_map};
ghost use Rattle.undo_list.specs.Groups.{group_at};
ghost use Rattle.undo_list.specs.Spell.{kept_count, held};
ghost use Rattle.undo_list.specs.View.{view};

use crate::entry::Entry;
use crate::list::UndoList;

// An entry with the bytes that it keeps, which are a part of the list's own.
#[derive(Clone, Copy)]
pub struct Reading<'a> {
    pub entry: Entry,
    pub kept: &'a [u8],
}

impl UndoList {
    // How many entries a group has: 0 where there is no such group. The closed groups are numbered
    // from 0, oldest first, and the open one comes after them.
    pub fn group_len(&self, group: usize) -> usize
        ensures { result ≡ length (group_at (view self.now) group) }
    {
        self.group_range(group).len()
    }

    // Entry i of a group, counted from the newest, if there is one.
    pub fn read(&self, group: usize, i: usize) -> Option<Reading<'_>>
        ensures value { option_map (λ r. held r.entry r.kept.now) result ≡ slice_get (group_at (view self.now) group) i }
        ensures long { IfSome result (λ r. length r.kept.now ≡ kept_count r.entry) }
    {
        let range = self.group_range(group);
        if i >= range.len() {
            return None;
        }
        Some(self.reading(range.end - 1 - i))
    }
}
