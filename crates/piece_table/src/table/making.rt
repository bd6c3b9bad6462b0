// How a piece table is made.
ghost use Rattle.std.specs.Prelude.{◌≡◌, ◌/◌, min, [], IfOk, vec_len};
ghost use Rattle.piece_table.specs.TableText.{table_text, table_room};

use super::PieceTable;
use crate::piece_list::PieceList;
use std::alloc::{AllocError, Global};
use store::checks::MAX_CAPACITY;

impl PieceTable {
    // An empty text in two halves, each of the capacity: half the memory's length, at most 32,768.
    // No other call can want memory.
    pub fn new(heap: Global, mut memory: Vec<u8>) -> Result<PieceTable, AllocError>
        ensures text { IfOk result (λ t. table_text t ≡ []) }
        ensures room { IfOk result (λ t. table_room t ≡ min (vec_len memory / 2) 32768) }
    {
        let room = (memory.len() / 2).min(MAX_CAPACITY);
        let pieces = PieceList::new(heap)?;
        let spare = Vec::with_capacity(heap, room)?;
        memory.clear();
        Ok(PieceTable {
            live: memory,
            spare,
            room,
            pieces,
            size: 0,
        })
    }
}
