// Whether the capacity has room.
ghost use Rattle.std.specs.Prelude.{◌≡◌, ◌+◌, ◌≤◌, None, OnOk};
ghost use Rattle.store.specs.Edits.{answer};
ghost use Rattle.turns.specs.Checks.{room_check};
ghost use Rattle.turns.specs.Faults.{rooms_check};
ghost use Rattle.turns.specs.Rests.{Roomed};

use places::edit::Edit;
use places::faults::{Fault, Refusal, Refuses};
use store::checks::has_room;

// Capacity: n bytes more do not make the text longer than it. Length and capacity are two numbers, as a
// store answers them: a type for the two would be built at each call only to be taken apart in it.
pub fn check_room(len: usize, room: usize, n: usize, p: usize) -> Result<(), Fault>
    ensures value { result ≡ answer (room_check len room n) p }
    ensures passed { OnOk result ((room_check len room n ≡ None) × (len + n ≤ room)) }
{
    if !has_room(len, room, n) {
        return Err(Refusal::Capacity.at(p));
    }
    Ok(())
}

// The length after an edit, if it has room.
fn after_edit(len: usize, room: usize, edit: Edit) -> Result<usize, Fault>
    ensures { Roomed len room edit result }
{
    match edit {
        Edit::Insertion { place: _, count } => {
            check_room(len, room, count, 0)?;
            Ok(len + count)
        }
        Edit::Deletion { place: _, count } => Ok(len.saturating_sub(count)),
    }
}

// Capacity, to all the edits at their turn: no text in between is longer.
#[tactic(auto, using(crate::proofs::Turned::room_refused, crate::proofs::Turned::room_passed, crate::proofs::Turned::rooms_done))]
pub(crate) fn check_rooms(len: usize, room: usize, edits: &[Edit]) -> Result<(), Fault>
    ensures { result ≡ answer (rooms_check len room edits.now) 0 }
{
    let mut now_long = len;
    for edit in edits {
        now_long = after_edit(now_long, room, *edit)?;
    }
    Ok(())
}
