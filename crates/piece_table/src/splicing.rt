// What an edit makes of the pieces: one piece in the place of a part of the text.
ghost use Rattle.std.specs.Prelude.{◌≡◌, ◌+◌, ◌-◌, ◌^◌, ◌<◌, ◌≤◌, min, true, ◌++◌, length, vec_len, vec_capacity};
ghost use Rattle.piece_table.specs.Pieces.{back_piece, front_piece, inside, kept, max_pieces, past, Into, piece_at, spliced};

use crate::pieces::{NO_PIECE, Piece, Spot};

// Adds a piece, unless it is empty.
fn push_kept(to: &mut Vec<Piece>, q: Piece)
    requires { vec_len to.old < vec_capacity to.old }
    ensures items { to.new.items ≡ to.old.items ++ kept q }
    ensures len { vec_len to.new ≡ vec_len to.old + min q.len 1 }
    ensures capacity { vec_capacity to.new ≡ vec_capacity to.old }
{
    if q.len != 0 {
        to.push_reserved(q);
    }
}

// The bytes of a piece before a spot in it.
fn front_of(pieces: &[Piece], a: Spot) -> Piece
    requires { Into pieces.now a }
    ensures { result ≡ front_piece pieces.now a }
{
    if a.offset == 0 {
        NO_PIECE
    } else {
        Piece {
            start: pieces[a.piece].start,
            len: a.offset,
        }
    }
}

// The bytes of a piece behind a spot in it.
fn back_of(pieces: &[Piece], b: Spot) -> Piece
    requires into { Into pieces.now b }
    requires low { 0 < b.offset → (piece_at pieces.now b.piece).start + (piece_at pieces.now b.piece).len ≤ 32768 }
    ensures { result ≡ back_piece pieces.now b }
{
    if b.offset == 0 {
        NO_PIECE
    } else {
        Piece {
            start: pieces[b.piece].start + b.offset,
            len: pieces[b.piece].len - b.offset,
        }
    }
}

// The first piece that lies wholly behind a spot.
fn past_of(b: Spot) -> usize
    requires { b.piece < 2 ^ 64 - 1 }
    ensures { result ≡ past b }
{
    if b.offset == 0 { b.piece } else { b.piece + 1 }
}

// Writes into `to` what lies before the spot a, the piece `new`, and what lies behind the spot b.
pub(crate) fn splice(pieces: &[Piece], a: Spot, new: Piece, b: Spot, to: &mut Vec<Piece>)
    requires order { a.piece ≤ b.piece }
    requires within { b.piece ≤ length pieces.now }
    requires front { Into pieces.now a }
    requires back { Into pieces.now b }
    requires low { inside 32768 pieces.now ≡ true }
    requires few { length pieces.now + 2 ≤ max_pieces }
    requires reserved { max_pieces ≤ vec_capacity to.old }
    ensures items { to.new.items ≡ spliced pieces.now a new b }
    ensures few { vec_len to.new ≤ max_pieces }
    ensures capacity { vec_capacity to.old ≤ vec_capacity to.new }
{
    to.clear();
    let _ = to.extend_from_slice(&pieces[..a.piece]);
    push_kept(to, front_of(pieces, a));
    push_kept(to, new);
    push_kept(to, back_of(pieces, b));
    let _ = to.extend_from_slice(&pieces[past_of(b)..]);
}
