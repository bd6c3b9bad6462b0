// The making of an undo list, which alone can want memory.
ghost use Rattle.std.specs.Prelude.{◌≡◌, ◌≤◌, [], IfOk, vec_capacity};
ghost use Rattle.undo_list.specs.Groups.{Empty};
ghost use Rattle.undo_list.specs.View.{view};

use crate::entry::Stored;
use crate::limits::{MAX_BYTES, MAX_ENTRIES, MAX_GROUPS};
use crate::list::UndoList;
use std::alloc::{AllocError, Global};

impl UndoList {
    // An empty list, with all the memory that it will ever use.
    pub fn new(heap: Global) -> Result<UndoList, AllocError>
        ensures { IfOk result (λ list. Empty (view list)) }
    {
        let stored = Vec::with_capacity(heap, MAX_ENTRIES)?;
        let kept = Vec::with_capacity(heap, MAX_BYTES)?;
        let ends = Vec::with_capacity(heap, MAX_GROUPS)?;
        Ok(UndoList::over(stored, kept, ends))
    }

    // The empty list over memory that was reserved.
    #[tactic(auto, using(crate::proofs::Lists::empty))]
    fn over(stored: Vec<Stored>, kept: Vec<u8>, ends: Vec<usize>) -> UndoList
        requires stored { (stored.items ≡ []) × (512 ≤ vec_capacity stored) }
        requires kept { (kept.items ≡ []) × (16384 ≤ vec_capacity kept) }
        requires ends { (ends.items ≡ []) × (256 ≤ vec_capacity ends) }
        ensures { Empty (view result) }
    {
        UndoList { stored, kept, ends }
    }
}
