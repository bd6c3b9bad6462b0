// Insert and delete.
ghost use Rattle.std.specs.Prelude.{◌≡◌, length, None};
ghost use Rattle.places.specs.declared.edit.Edit.TheVariants.{Insertion, Deletion};
ghost use Rattle.places.specs.Carry.{after};
ghost use Rattle.places.specs.Markers.{markers_noted};
ghost use Rattle.places.specs.Model.{model};
ghost use Rattle.store.specs.Edits.{answer};
ghost use Rattle.undo_list.specs.Limits.{entry_check};
ghost use Rattle.session.specs.Calls.{insert_check, insert_world, delete_check, delete_world};
ghost use Rattle.session.specs.Admitted.{Removable};
ghost use Rattle.session.specs.Passes.{Insertable};
ghost use Rattle.session.specs.View.{view};
ghost use Rattle.session.specs.World.{inserted, deleted};

use crate::checks::{admit_deletion, admit_insertion};
use crate::next_state::next_state;
use crate::session::Session;
use crate::state::Kind;
use places::edit::Edit;
use places::faults::Fault;
use places::notes::Notes;
use places::record::Places;
use store::checks::MAX_COUNT;
use store::text_store::TextStore;

// Markers, spans and window behind an insertion of n bytes at p.
fn after_insertion(places: Places, p: usize, n: usize) -> Places
    ensures { model result ≡ after (Insertion p n) (model places) }
{
    places.after(Edit::Insertion { place: p, count: n })
}

// What a deletion of n bytes at p notes of the markers, before it; and all behind it.
fn through_deletion(places: Places, p: usize, n: usize) -> (Notes, Places)
    ensures count { result.0.count ≡ n }
    ensures distances { result.0.distances ≡ markers_noted p n places.markers }
    ensures after { model result.1 ≡ after (Deletion p n) (model places) }
{
    let notes = places.note(p, n);
    (notes, places.after(Edit::Deletion { place: p, count: n }))
}

impl<S: TextStore> Session<S> {
    // Puts the bytes in at p, carries markers and spans, and records the insertion.
    fn put_in(&mut self, p: usize, bytes: &[u8])
        requires text { Insertable (view self.old).places (view self.old).room p (length bytes.now) }
        requires list { entry_check (view self.old).groups 0 ≡ None }
        ensures view { view self.new ≡ inserted p bytes.now (view self.old) }
        ensures state { self.new.state ≡ self.old.state }
    {
        let n = bytes.len();
        let _ = self.store.insert(p, bytes);
        let _ = self.list.record_insertion(p, n);
        self.places = after_insertion(self.places, p, n);
    }

    // Puts the bytes in at p: state, count, place, window, spans, capacity, undo list.
    #[tactic(auto, unfolding(crate::specs::View::view, crate::specs::Calls::insert_check, crate::specs::Calls::insert_world))]
    pub fn insert(&mut self, p: usize, bytes: &[u8]) -> Result<(), Fault>
        ensures value { result ≡ answer (insert_check (view self.old) p (length bytes.now)) p }
        ensures world { view self.new ≡ insert_world (view self.old) p bytes.now }
    {
        let next = next_state(self.state, Kind::Insert, p)?;
        admit_insertion(self.places, self.store.capacity(), p, bytes.len())?;
        self.list.check_entry(0, p)?;
        self.put_in(p, bytes);
        self.go_to(next);
        Ok(())
    }

    // Takes n bytes from p on out: markers are noted before, then all is carried, and the deletion is
    // recorded with its bytes and notes.
    pub(super) fn take_out(&mut self, p: usize, n: usize)
        requires { Removable (view self.old) p n }
        ensures view { view self.new ≡ deleted p n (view self.old) }
        ensures state { self.new.state ≡ self.old.state }
        ensures made { self.new.made ≡ self.old.made }
    {
        let (notes, after) = through_deletion(self.places, p, n);
        // as long as the longest deletion, by value: no call but the making takes memory
        let mut area = [0u8; MAX_COUNT];
        let _ = self.store.copy(p, n, &mut area);
        let _ = self.list.record_deletion(p, &area[0..n], notes);
        let _ = self.store.delete(p, n);
        self.places = after;
    }

    // Takes n bytes from p on out: state, count, place, window, spans, undo list.
    #[tactic(auto, unfolding(crate::specs::View::view, crate::specs::Calls::delete_check, crate::specs::Calls::delete_world))]
    pub fn delete(&mut self, p: usize, n: usize) -> Result<(), Fault>
        ensures value { result ≡ answer (delete_check (view self.old) p n) p }
        ensures world { view self.new ≡ delete_world (view self.old) p n }
    {
        let next = next_state(self.state, Kind::Delete, p)?;
        admit_deletion(self.places, p, n)?;
        self.list.check_entry(n, p)?;
        self.take_out(p, n);
        self.go_to(next);
        Ok(())
    }
}
