// The pieces of a text, and how one gives place to others.
ghost use Rattle.std.specs.Prelude.{◌≡◌, ◌+◌, ◌≤◌, nat_lt, true, [], ◌∷◌, IfOk, vec_len, vec_capacity};
ghost use Rattle.piece_table.specs.Pieces.{inside, max_pieces, total, Edited};

use crate::pieces::{Piece, walk};
use crate::splicing::splice;
use std::alloc::{AllocError, Global};

// The most pieces of a text.
const MAX_PIECES: usize = 64;

// How many pieces an edit can add: a new one, and the second half of one that it splits.
const EDIT_PIECES: usize = 2;

// `next` is where an edit writes the next list of pieces; both lists are reserved at the making, so
// that no edit can want memory.
#[derive(Drop)]
pub struct PieceList {
    list: Vec<Piece>,
    next: Vec<Piece>,
    ghost few: { vec_len list ≤ max_pieces },
    ghost reserved: { max_pieces ≤ vec_capacity list },
    ghost ready: { max_pieces ≤ vec_capacity next },
    ghost low: { inside 32768 list.items ≡ true },
}

impl PieceList {
    // No pieces. No other call can want memory.
    pub(crate) fn new(heap: Global) -> Result<PieceList, AllocError>
        ensures { IfOk result (λ l. l.list.items ≡ []) }
    {
        Ok(PieceList {
            list: Vec::with_capacity(heap, MAX_PIECES)?,
            next: Vec::with_capacity(heap, MAX_PIECES)?,
        })
    }

    pub(crate) fn as_slice(&self) -> &[Piece]
        ensures { result.now ≡ self.now.list.items }
    {
        self.list.as_slice()
    }

    // Whether an edit could want more pieces than there may be.
    pub(crate) fn is_full(&self) -> bool
        ensures { result ≡ nat_lt max_pieces (vec_len self.now.list + 2) }
    {
        self.list.len() > MAX_PIECES - EDIT_PIECES
    }

    // Puts one piece in the place of all.
    pub(crate) fn become_one(&mut self, piece: Piece)
        requires { piece.start + piece.len ≤ 32768 }
        ensures { self.new.list.items ≡ piece ∷ [] }
    {
        self.list.clear();
        self.list.push_reserved(piece);
    }

    // Puts the piece `new` in the place of n bytes of the text from p on. The list grows by at most
    // two pieces: `new`, and the back of one that it splits.
    pub(crate) fn replace(&mut self, p: usize, n: usize, new: Piece)
        requires place { p + n ≤ total self.old.list.items }
        requires short { p + n ≤ 32768 }
        requires low { new.start + new.len ≤ 32768 }
        requires few { vec_len self.old.list + 2 ≤ max_pieces }
        ensures { Edited self.old.list.items p n new self.new.list.items }
    {
        let list = self.list.as_slice();
        let a = walk(list, 0, p);
        let b = walk(list, a.piece, a.offset + n);
        splice(list, a, new, b, &mut self.next);
        std::mem::swap(&mut self.list, &mut self.next);
    }
}
