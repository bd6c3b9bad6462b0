// The text that pieces of a memory spell.
ghost use Rattle.std.specs.Prelude.{◌≡◌, ℕ, ◌+◌, ◌<◌, ◌≤◌, ◌++◌, true, List, length, slice_index, vec_capacity};
ghost use Rattle.store.specs.Edits.{copied};
ghost use Rattle.piece_table.specs.Pieces.{inside, spelled};

use crate::pieces::{Piece, walk};
use std::marker::Model;

// Pieces that lie in a memory, and that memory. Seen from outside it is the text.
#[derive(Drop)]
pub(crate) struct Spelling<'a> {
    pub(crate) memory: &'a [u8],
    pub(crate) pieces: &'a [Piece],
}

impl<'a> Model for Spelling<'a> {
    ghost Value = { List ℕ };

    ghost view = { λ s. spelled s.memory.now s.pieces.now };

    ghost invariant = { λ s. inside (length s.memory.now) s.pieces.now ≡ true };
}

impl Spelling<'_> {
    // The byte at p of the text.
    #[tactic(auto, using(crate::proofs::Spelled::length_spelled, crate::proofs::Spelled::walked_byte))]
    pub(crate) fn byte(&self, p: usize) -> u8
        requires { p < length self.now }
        ensures { result ≡ slice_index self.now p }
    {
        let spot = walk(self.pieces, 0, p);
        let at = self.pieces[spot.piece].start + spot.offset;
        self.memory[at]
    }

    // Writes n bytes of the text from p on into the front of the area; its rest stays. One pass
    // over the pieces: those before p are stepped over, each other gives what is wanted of it. What is
    // skipped and what is done follow the pieces' own lengths, which no adapter of a loop does.
    #[tactic(auto, using(crate::proofs::Inside::inside_at))]
    pub(crate) fn copy_out(&self, p: usize, n: usize, area: &mut [u8])
        requires place { p + n ≤ length self.now }
        requires fits { n ≤ length area.old }
        ensures { area.new ≡ copied self.now p n area.old }
    {
        let mut skip = p;
        let mut done = 0;
        for q in self.pieces {
            if skip < q.len {
                let more = (q.len - skip).min(n - done);
                let from = q.start + skip;
                area[done..done + more].copy_from_slice(&self.memory[from..from + more]);
                done += more;
                skip = 0;
            } else {
                skip -= q.len;
            }
        }
    }

    // Adds the whole text, for which there is room.
    #[tactic(auto, using(crate::proofs::Inside::inside_at))]
    pub(crate) fn append_to(&self, to: &mut Vec<u8>)
        requires { length to.old.items + length self.now ≤ vec_capacity to.old }
        ensures items { to.new.items ≡ to.old.items ++ self.now }
        ensures capacity { vec_capacity to.old ≤ vec_capacity to.new }
    {
        for q in self.pieces {
            let end = q.start + q.len;
            let _ = to.extend_from_slice(&self.memory[q.start..end]);
        }
    }
}
