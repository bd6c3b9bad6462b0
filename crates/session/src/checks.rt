// What a text asks of an edit of a call: each check in the order of the table.
ghost use Rattle.std.specs.Prelude.{◌≡◌, ◌+◌, ◌≤◌, true, false, None, OnOk};
ghost use Rattle.places.specs.declared.edit.Edit.TheVariants.{Deletion};
ghost use Rattle.places.specs.declared.edit.Origin.TheVariants.{Call};
ghost use Rattle.places.specs.Checks.{in_window};
ghost use Rattle.places.specs.Model.{model};
ghost use Rattle.store.specs.Edits.{answer};
ghost use Rattle.places.specs.Spans.{meets, some_span};
ghost use Rattle.session.specs.Calls.{insertion_check, insertion_checks, deletion_check, deletion_checks};
ghost use Rattle.session.specs.Passes.{Insertable, Deletable};

use places::edit::{Edit, Origin};
use places::faults::Fault;
use places::record::Places;
use turns::room::check_room;
use undo_list::limits::check_count;

// An insertion of n bytes at p: count, place, window, spans, capacity.
#[tactic(auto, unfolding(crate::specs::Calls::insertion_check))]
pub(crate) fn admit_insertion(places: Places, room: usize, p: usize, n: usize) -> Result<(), Fault>
    ensures value { result ≡ answer (insertion_check (model places) room p n) p }
    ensures passed { OnOk result (Insertable (model places) room p n) }
{
    let insertion = Edit::Insertion { place: p, count: n };
    check_count(n, p)?;
    places.check_place(insertion)?;
    places.check_window(insertion)?;
    places.check_spans(Origin::Call, insertion)?;
    check_room(places.len, room, n, p)
}

// A deletion of n bytes from p on: count, place, window, spans.
#[tactic(auto, unfolding(crate::specs::Calls::deletion_check))]
pub(crate) fn admit_deletion(places: Places, p: usize, n: usize) -> Result<(), Fault>
    ensures value { result ≡ answer (deletion_check (model places) p n) p }
    ensures passed { OnOk result (Deletable (model places) p n) }
{
    let deletion = Edit::Deletion { place: p, count: n };
    check_count(n, p)?;
    places.check_place(deletion)?;
    places.check_window(deletion)?;
    places.check_spans(Origin::Call, deletion)
}
