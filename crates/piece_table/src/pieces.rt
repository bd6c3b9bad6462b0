// Pieces of a memory, and places in the text that a list of them spells, one after the other.
ghost use Rattle.std.specs.Prelude.{◌+◌, ◌≤◌, length, take};
ghost use Rattle.piece_table.specs.Pieces.{total, Walked};

// `len` bytes of the memory from `start` on.
#[derive(Clone, Copy)]
pub struct Piece {
    pub start: usize,
    pub len: usize,
}

// An empty piece stands for none: an `Option` would only add a test to the one for no bytes.
pub(crate) const NO_PIECE: Piece = Piece { start: 0, len: 0 };

// A place between two bytes of the text: `offset` bytes into a piece. With no offset it lies before
// the piece, or behind the last.
#[derive(Clone, Copy)]
pub struct Spot {
    pub piece: usize,
    pub offset: usize,
}

// Where `left` bytes from the piece `from` on end.
#[tactic(auto, using(crate::proofs::Spelled::total_from))]
pub(crate) fn walk(pieces: &[Piece], from: usize, left: usize) -> Spot
    requires within { from ≤ length pieces.now }
    requires enough { total (take from pieces.now) + left ≤ total pieces.now }
    ensures { Walked pieces.now from left result }
{
    let mut offset = left;
    for (i, q) in pieces[from..].iter().enumerate() {
        if offset < q.len {
            return Spot {
                piece: from + i,
                offset,
            };
        }
        offset -= q.len;
    }
    Spot {
        piece: pieces.len(),
        offset,
    }
}
