// What edits keep, each law as the contract of a function that does the edits.
ghost use Rattle.std.specs.Prelude.{◌≡◌, true, false};
ghost use Rattle.std.specs.List.{AllZip};
ghost use Rattle.places.specs.Carry.{fits, after, deletion_inverted};
ghost use Rattle.places.specs.Laws.{admitted, SameBytes};
ghost use Rattle.places.specs.Markers.{markers_noted};
ghost use Rattle.places.specs.Model.{model};
ghost use Rattle.places.specs.Spans.{meets, some_span};
ghost use Rattle.places.specs.declared.edit.Edit.TheVariants.{Insertion, Deletion};
ghost use Rattle.places.specs.declared.edit.Origin.{Origin};

use crate::edit::Edit;
use crate::notes::Notes;
use crate::record::Places;

// An insertion, and then the deletion of the same bytes: where the insertion is admitted, each
// marker, each span, both counts and the length are as before.
pub fn inserted_and_deleted(places: Places, p: usize, n: usize) -> Places
    ensures value { model result ≡ after (Deletion p n) (after (Insertion p n) (model places)) }
    ensures law { (o : Origin) → admitted (model places) o (Insertion p n) ≡ true → model result ≡ model places }
{
    places
        .after(Edit::Insertion { place: p, count: n })
        .after(Edit::Deletion { place: p, count: n })
}

// A deletion, and then its inversion with its notes: where the deletion fits, each marker is back,
// wherever it stood, and so are the spans, the counts and the length.
pub fn deleted_and_put_back(places: Places, p: usize, n: usize) -> Places
    ensures value { model result ≡ deletion_inverted p n (markers_noted p n places.markers) (after (Deletion p n) (model places)) }
    ensures law { fits (Deletion p n) (model places) ≡ true → model result ≡ model places }
{
    let notes = places.note(p, n);
    places
        .after(Edit::Deletion { place: p, count: n })
        .put_back(p, notes)
}

// The inversion of a deletion, with any notes, and then the deletion of the same bytes: as for an
// insertion. A redo relies on it.
pub fn put_back_and_deleted(places: Places, p: usize, notes: Notes) -> Places
    ensures value { model result ≡ after (Deletion p notes.count) (deletion_inverted p notes.count notes.distances (model places)) }
    ensures law { (o : Origin) → admitted (model places) o (Insertion p notes.count) ≡ true → model result ≡ model places }
{
    let n = notes.count;
    places
        .put_back(p, notes)
        .after(Edit::Deletion { place: p, count: n })
}

// An edit that meets no span: each span covers the same bytes of the text as before.
pub fn carried_unmet(places: Places, edit: Edit) -> Places
    ensures value { model result ≡ after edit (model places) }
    ensures law { (o : Origin) → fits edit (model places) ≡ true → some_span (meets o edit) (model places).spans ≡ false → AllZip (SameBytes edit) (model places).spans (model result).spans }
{
    places.after(edit)
}
