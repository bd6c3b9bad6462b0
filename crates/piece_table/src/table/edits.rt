// How a piece table's text is changed.
ghost use Rattle.std.specs.Prelude.{◌≡◌, ◌+◌, ◌≤◌, length};
ghost use Rattle.store.specs.Edits.{deleted_at, inserted_at};
ghost use Rattle.piece_table.specs.TableText.{table_text, table_room};

use super::PieceTable;
use crate::pieces::{NO_PIECE, Piece};

impl PieceTable {
    // Writes the bytes behind the live half's others, and a piece for them at p.
    pub(super) fn put(&mut self, p: usize, bytes: &[u8])
        requires place { p ≤ length (table_text self.old) }
        requires fits { length (table_text self.old) + length bytes.now ≤ table_room self.old }
        ensures text { table_text self.new ≡ inserted_at (table_text self.old) p bytes.now }
        ensures long { length (table_text self.new) ≡ length (table_text self.old) + length bytes.now }
        ensures room { table_room self.new ≡ table_room self.old }
    {
        self.make_room(bytes.len());
        let start = self.live.len();
        let len = bytes.len();
        let _ = self.live.extend_from_slice(bytes);
        self.pieces.replace(p, 0, Piece { start, len });
        self.size += len;
    }

    // Leaves out n bytes from p on. Their memory is free again at the next rewriting.
    pub(super) fn cut(&mut self, p: usize, n: usize)
        requires { p + n ≤ length (table_text self.old) }
        ensures text { table_text self.new ≡ deleted_at (table_text self.old) p n }
        ensures long { length (table_text self.new) + n ≡ length (table_text self.old) }
        ensures room { table_room self.new ≡ table_room self.old }
    {
        self.make_room(0);
        self.pieces.replace(p, n, NO_PIECE);
        self.size -= n;
    }
}
