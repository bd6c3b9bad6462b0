// The making of a session, which alone can want memory, and its taking apart.
ghost use Rattle.std.specs.Prelude.{◌≡◌, ◌≤◌, [], IfOk, IfErr, vec_capacity};
ghost use Rattle.undo_list.specs.Groups.{Empty};
ghost use Rattle.undo_list.specs.View.{view as list-view};
ghost use Rattle.session.specs.View.{view};
ghost use Rattle.session.specs.World.{new_world};

use crate::session::Session;
use crate::state::State;
use places::edit::Edit;
use places::record::Places;
use std::alloc::{AllocError, Global};
use store::text_store::TextStore;
use undo_list::limits::{MAX_ENTRIES, MAX_GROUPS};
use undo_list::list::UndoList;

// An empty undo list, and room for the numbers of as many groups, and for as many edits, as it can hold.
fn reserve(heap: Global) -> Result<(UndoList, Vec<usize>, Vec<Edit>), AllocError>
    ensures list { IfOk result (λ v. Empty (list-view v.0)) }
    ensures stack { IfOk result (λ v. (v.1.items ≡ []) × (256 ≤ vec_capacity v.1)) }
    ensures edits { IfOk result (λ v. 512 ≤ vec_capacity v.2) }
{
    let list = UndoList::new(heap)?;
    let made = Vec::with_capacity(heap, MAX_GROUPS)?;
    let edits = Vec::with_capacity(heap, MAX_ENTRIES)?;
    Ok((list, made, edits))
}

impl<S: TextStore> Session<S> {
    // A session over a store with any text: all markers at 0, no span, no narrowing, an empty undo
    // list. Where memory is wanting it hands the store back.
    pub fn new(heap: Global, store: S) -> Result<Session<S>, S>
        ensures made { IfOk result (λ s. view s ≡ new_world (S.TextStore.text store) (S.TextStore.room store)) }
        ensures back { IfErr result (λ back. back ≡ store) }
    {
        // a match and no map_err: both arms take the store
        match reserve(heap) {
            Ok((list, made, edits)) => Ok(Session::over(store, list, made, edits)),
            Err(_) => Err(store),
        }
    }

    #[tactic(auto, unfolding(crate::specs::View::view, crate::specs::World::new_world))]
    fn over(store: S, list: UndoList, made: Vec<usize>, edits: Vec<Edit>) -> Session<S>
        requires list { Empty (list-view list) }
        requires stack { (made.items ≡ []) × (256 ≤ vec_capacity made) }
        requires edits { 512 ≤ vec_capacity edits }
        ensures { view result ≡ new_world (S.TextStore.text store) (S.TextStore.room store) }
    {
        let places = Places::new(store.len());
        Session {
            store,
            places,
            list,
            state: State::Rest,
            made,
            noted: Places::new(0),
            edits,
        }
    }

    // The store, with the text that the session had. All else is let go.
    #[tactic(auto, unfolding(crate::specs::View::view))]
    pub fn into_store(self) -> S
        ensures text { S.TextStore.text result ≡ (view self).text }
        ensures room { S.TextStore.room result ≡ (view self).room }
    {
        let Session {
            store,
            places: _,
            list,
            state: _,
            made,
            noted: _,
            edits,
        } = self;
        drop(list);
        drop(made);
        drop(edits);
        store
    }
}
