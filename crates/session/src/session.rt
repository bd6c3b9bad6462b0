// A session over any text store.
ghost use Rattle.std.specs.Prelude.{◌≡◌, length, ◌+◌, ◌≤◌, vec_len, vec_capacity};
ghost use Rattle.session.specs.States.{below};

use crate::state::State;
use places::edit::Edit;
use places::record::Places;
use store::text_store::TextStore;
use undo_list::list::UndoList;

mod edits;
mod groups;
mod making;
mod marks;
mod questions;
mod standing;
mod undoing;

// Its text is its store's at every moment. All memory that it ever uses besides the store is there
// from the making.
pub struct Session<S: TextStore> {
    store: S,
    // the markers, spans and window, within the text's length
    places: Places,
    list: UndoList,
    state: State,
    // in a chain: the groups that its undos made and no redo took back; its memory outlives the state
    made: Vec<usize>,
    // in a change: the markers, spans and window of its opening; beside the state, which is compared
    noted: Places,
    // the inverse edits of a group, while they are put to the checks
    edits: Vec<Edit>,
    ghost fits: { places.len ≡ length (S.TextStore.text store) },
    ghost edits_reserved: { 512 ≤ vec_capacity edits },
    ghost made_reserved: { 256 ≤ vec_capacity made },
    ghost made_few: { below state + vec_len made ≤ 256 },
}
