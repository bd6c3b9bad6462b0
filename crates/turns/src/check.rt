// All checks, to all edits.
ghost use Rattle.std.specs.Prelude.{◌≡◌};
ghost use Rattle.places.specs.Model.{model};
ghost use Rattle.undo_list.specs.View.{view};
ghost use Rattle.turns.specs.Faults.{edits_fault};
ghost use Rattle.turns.specs.Rests.{verdict, list_fault};

use crate::counts::{check_counts, losses};
use crate::room::check_rooms;
use places::edit::{Check, Edit, Origin};
use places::faults::{Fault, Refusal, Refuses};
use places::record::Places;
use undo_list::list::UndoList;

// Undo list: the edits, as a group of their own, pass no limit.
#[tactic(auto, using(crate::proofs::Judged::listed, crate::proofs::Judged::overfull), unfolding(crate::specs::Rests::list_fault))]
fn check_list(list: &UndoList, edits: &[Edit]) -> Result<(), Fault>
    ensures { result ≡ verdict (list_fault (view list.now) edits.now) }
{
    let bytes = losses(edits).ok_or(Refusal::UndoList.at(0))?;
    list.check_group(edits.len(), bytes, 0)
}

// Count to all the edits, then place, window, spans and capacity, each to all of them at their turn, then
// the undo list: the first fault answers.
#[tactic(auto, using(crate::proofs::Judged::answer_passes, crate::proofs::Judged::answer_fails), unfolding(crate::specs::Faults::edits_fault, crate::specs::Rests::list_fault))]
pub fn check_edits(
    places: Places,
    room: usize,
    list: &UndoList,
    edits: &[Edit],
) -> Result<(), Fault>
    ensures { result ≡ verdict (edits_fault (model places) room (view list.now) edits.now) }
{
    check_counts(edits)?;
    // a fault of place answers without the place that it met
    places
        .check_all(Check::Place, edits)
        .map_err(|fault| fault.refusal.at(0))?;
    places.check_all(Check::Window, edits)?;
    places.check_all(Check::Spans(Origin::Undo), edits)?;
    check_rooms(places.len, room, edits)?;
    check_list(list, edits)
}
