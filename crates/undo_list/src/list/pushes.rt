// One more entry, and one more end.
ghost use Rattle.std.specs.Prelude.{◌≡◌, ℕ, ◌+◌, ◌≤◌, true, List, [], length, vec_len};
ghost use Rattle.undo_list.specs.Groups.{PutIn, Took, entries_in, bytes_in, has_open, groups_in, recorded, shut};
ghost use Rattle.undo_list.specs.Spell.{held, kept_count};
ghost use Rattle.undo_list.specs.View.{view};

use crate::entry::{Entry, Stored};
use crate::kind::Kind;
use crate::list::UndoList;
use places::notes::Notes;

pub(super) fn insertion(place: usize, count: usize) -> Entry
    requires some { 1 ≤ count }
    requires few { count ≤ 4096 }
    ensures held { (bytes : List ℕ) → held result bytes ≡ PutIn place count }
    ensures kept { kept_count result ≡ 0 }
{
    Entry {
        place,
        count,
        kind: Kind::Insertion,
    }
}

pub(super) fn deletion(place: usize, notes: Notes) -> Entry
    requires some { 1 ≤ notes.count }
    requires few { notes.count ≤ 4096 }
    ensures held { (bytes : List ℕ) → held result bytes ≡ Took place bytes notes.distances }
    ensures kept { kept_count result ≡ notes.count }
{
    let distances = notes.distances;
    Entry {
        place,
        count: notes.count,
        kind: Kind::Deletion { distances },
    }
}

impl UndoList {
    // An entry as it is stored, behind all bytes kept so far.
    fn behind_kept(&self, entry: Entry) -> Stored
        ensures { result ≡ record { entry = entry; before = vec_len self.now.kept } }
    {
        Stored {
            entry,
            before: self.kept.len(),
        }
    }

    // Puts an entry behind the others, with the bytes that it keeps.
    pub(super) fn push(&mut self, entry: Entry, bytes: &[u8])
        requires kept { kept_count entry ≡ length bytes.now }
        requires entries { entries_in (view self.old) + 1 ≤ 512 }
        requires bytes { bytes_in (view self.old) + length bytes.now ≤ 16384 }
        requires groups { length (view self.old).closed + 1 ≤ 256 }
        ensures view { view self.new ≡ recorded (held entry bytes.now) (view self.old) }
        ensures entries { entries_in (view self.new) ≡ entries_in (view self.old) + 1 }
        ensures bytes { bytes_in (view self.new) ≡ bytes_in (view self.old) + length bytes.now }
        ensures groups { groups_in (view self.new) ≡ length (view self.old).closed + 1 }
    {
        let stored = self.behind_kept(entry);
        self.stored.push_reserved(stored);
        let _ = self.kept.extend_from_slice(bytes);
    }

    // Closes the open group.
    pub(super) fn push_end(&mut self)
        requires { has_open (view self.old) ≡ true }
        ensures view { view self.new ≡ shut (view self.old) }
        ensures entries { entries_in (view self.new) ≡ entries_in (view self.old) }
        ensures bytes { bytes_in (view self.new) ≡ bytes_in (view self.old) }
        ensures groups { length (view self.new).closed ≡ groups_in (view self.old) }
        ensures opened { (view self.new).opened ≡ [] }
    {
        let entries = self.stored.len();
        self.ends.push_reserved(entries);
    }
}
