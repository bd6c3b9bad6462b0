// A record of places, carried through an edit; and the notes of a deletion, with which its inversion
// puts the markers back.
ghost use Rattle.std.specs.Prelude.{◌≡◌};
ghost use Rattle.places.specs.Carry.{fits, after, deletion_inverted};
ghost use Rattle.places.specs.Markers.{markers_noted};
ghost use Rattle.places.specs.Model.{model};

use crate::edit::{Edit, Origin};
use crate::marker::note_one;
use crate::markers::{markers_after, markers_put_back, of_each};
use crate::notes::Notes;
use crate::record::Places;
use store::checks::has_room;

impl Places {
    // Whether the record can be carried through the edit.
    fn fits(self, edit: Edit) -> bool
        ensures { result ≡ fits edit (model self) }
    {
        match edit {
            Edit::Insertion { place, count } => place <= self.len
                && has_room(self.len, usize::MAX, count),
            Edit::Deletion { .. } => {
                self.in_window(edit) && !self.spans.any_meets(Origin::Call, edit)
            }
        }
    }

    // The record after an edit. One that does not fit leaves it as it is.
    pub fn after(mut self, edit: Edit) -> Places
        ensures { model result ≡ after edit (model self) }
    {
        if !self.fits(edit) {
            return self;
        }
        self.len = edit.len_after(self.len);
        self.markers = markers_after(edit, self.markers);
        self.spans.carry(edit);
        self
    }

    // What a deletion of n bytes at p notes of the markers, before it.
    pub fn note(self, p: usize, n: usize) -> Notes
        ensures count { result.count ≡ n }
        ensures distances { result.distances ≡ markers_noted p n self.markers }
    {
        Notes {
            count: n,
            distances: of_each(self.markers, None, |_, m| note_one(p, n, m)),
        }
    }

    // The record after the inversion of a deletion at p, with its notes: the bytes go back, and each
    // noted marker that stood at p just before goes to its distance.
    pub fn put_back(mut self, p: usize, notes: Notes) -> Places
        ensures { model result ≡ deletion_inverted p notes.count notes.distances (model self) }
    {
        let edit = Edit::Insertion {
            place: p,
            count: notes.count,
        };
        if !self.fits(edit) {
            return self;
        }
        self.len = edit.len_after(self.len);
        self.markers = markers_put_back(p, notes, self.markers);
        self.spans.carry(edit);
        self
    }
}
