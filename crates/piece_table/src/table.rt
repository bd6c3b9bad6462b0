// A text in pieces of one half of a memory, with the other half to rewrite it into.
ghost use Rattle.std.specs.Prelude.{◌≡◌, ◌≤◌, true, length, vec_capacity};
ghost use Rattle.piece_table.specs.Pieces.{inside, spelled};

use crate::piece_list::PieceList;

mod edits;
mod making;
mod reads;
mod rewriting;
mod text_store;

// The text, of `size` bytes, is what the pieces of the live half spell. New bytes go behind those of
// that half, so no piece is ever written over. A half takes up to `room` bytes, and both are reserved
// at the making; a vector's capacity may be larger. The size is held, so that it takes no pass to know.
#[derive(Drop)]
pub struct PieceTable {
    live: Vec<u8>,
    spare: Vec<u8>,
    room: usize,
    pieces: PieceList,
    size: usize,
    ghost limit: { room ≤ 32768 },
    ghost within: { length live.items ≤ room },
    ghost reserved: { room ≤ vec_capacity live },
    ghost ready: { room ≤ vec_capacity spare },
    ghost written: { inside (length live.items) pieces.list.items ≡ true },
    ghost long: { size ≡ length (spelled live.items pieces.list.items) },
    ghost fits: { size ≤ room },
}
