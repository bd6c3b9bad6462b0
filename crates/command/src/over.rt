// Correcting a text over a store of either make.
ghost use Rattle.std.specs.Prelude.{min, IfOk, IfErr};
ghost use Rattle.command.specs.Over.{CorrectsOver, TroubledOver};

use corrections::calls::Call;
use corrections::correct::{Corrected, Trouble, correct};
use gap_buffer::GapBuffer;
use piece_table::PieceTable;
use std::alloc::Global;

// The makes of store that there are.
#[derive(Clone, Copy, PartialEq, Eq, Debug)]
pub(crate) enum Make {
    Gap,
    Pieces,
}

// Makes a new store and corrects the text with it. Which make it is plays no part in the promise:
// both give the same answers and the same text.
pub(crate) fn correct_over(
    heap: Global,
    make: Make,
    capacity: usize,
    start: &[u8],
    calls: &[Call],
) -> Result<Corrected, Trouble>
    ensures corrected { IfOk result (λ v. CorrectsOver (min capacity 32768) start.now calls.now v) }
    ensures trouble { IfErr result (λ e. TroubledOver e (min capacity 32768) start.now) }
{
    match make {
        Make::Gap => {
            let memory = vec![in heap; 0; capacity]?;
            let mut store = GapBuffer::new(memory);
            correct(heap, &mut store, start, calls)
        }
        Make::Pieces => {
            let memory = vec![in heap; 0; capacity.saturating_mul(2)]?;
            let mut store = PieceTable::new(heap, memory)?;
            correct(heap, &mut store, start, calls)
        }
    }
}
