// The inversion of entries, done on the text.
ghost use Rattle.std.specs.Prelude.{◌≡◌, ◌<◌, length, slice_index_or};
ghost use Rattle.undo_list.specs.Groups.{group_at};
ghost use Rattle.undo_list.specs.Spell.{nothing};
ghost use Rattle.session.specs.Admitted.{Admits, AdmitsOne};
ghost use Rattle.session.specs.Undo.{invert, invert_all, with_closed};
ghost use Rattle.session.specs.View.{view};

use crate::session::Session;
use places::notes::Notes;
use store::text_store::TextStore;
use undo_list::kind::Kind;

impl<S: TextStore> Session<S> {
    // Inverts entry i of a group, counted from the newest: an insertion's range goes, a deletion's kept
    // bytes come back with its notes.
    fn invert_entry(&mut self, group: usize, i: usize)
        requires there { i < length (group_at (view self.old).groups group) }
        requires admitted { AdmitsOne (slice_index_or (group_at (view self.old).groups group) i nothing) (view self.old) }
        ensures view { view self.new ≡ invert (slice_index_or (group_at (view self.old).groups group) i nothing) (view self.old) }
        ensures state { self.new.state ≡ self.old.state }
        ensures made { self.new.made ≡ self.old.made }
    {
        let Some(reading) = self.list.read(group, i) else {
            return;
        };
        let entry = reading.entry;
        match entry.kind {
            Kind::Insertion => self.take_out(entry.place, entry.count),
            Kind::Deletion { distances } => {
                let notes = Notes {
                    count: entry.count,
                    distances,
                };
                let _ = self.store.insert(entry.place, reading.kept);
                let _ = self.list.record_insertion(entry.place, entry.count);
                self.places = self.places.put_back(entry.place, notes);
            }
        }
    }

    // Closes the open group, if there is one.
    #[tactic(auto, unfolding(crate::specs::View::view, crate::specs::Undo::with_closed))]
    pub(super) fn close_group(&mut self)
        ensures view { view self.new ≡ with_closed (view self.old) }
        ensures state { self.new.state ≡ self.old.state }
        ensures made { self.new.made ≡ self.old.made }
    {
        self.list.close();
    }

    // Inverts all entries of a closed group, newest first.
    fn invert_all(&mut self, group: usize)
        requires closed { group < length (view self.old).groups.closed }
        requires admitted { Admits (group_at (view self.old).groups group) (view self.old) }
        ensures view { view self.new ≡ invert_all (group_at (view self.old).groups group) (view self.old) }
        ensures state { self.new.state ≡ self.old.state }
        ensures made { self.new.made ≡ self.old.made }
    {
        let count = self.list.group_len(group);
        // by their numbers, since each inversion adds to the list that the entries are read from
        for i in 0..count {
            self.invert_entry(group, i);
        }
    }
}
