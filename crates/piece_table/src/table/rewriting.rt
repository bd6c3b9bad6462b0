// How a piece table makes room: the text is rewritten as one piece into the other half.
ghost use Rattle.std.specs.Prelude.{◌≡◌, ◌+◌, ◌≤◌, length, vec_len};
ghost use Rattle.piece_table.specs.Pieces.{max_pieces};
ghost use Rattle.piece_table.specs.TableText.{table_text, table_room};

use super::PieceTable;
use crate::pieces::Piece;
use crate::spelling::Spelling;

impl PieceTable {
    // Rewrites before n bytes more would overrun the half, or an edit the list of pieces.
    pub(super) fn make_room(&mut self, n: usize)
        requires { length (table_text self.old) + n ≤ table_room self.old }
        ensures text { table_text self.new ≡ table_text self.old }
        ensures room { table_room self.new ≡ table_room self.old }
        ensures fits { length self.new.live.items + n ≤ table_room self.new }
        ensures few { vec_len self.new.pieces.list + 2 ≤ max_pieces }
    {
        let free = self.room - self.live.len();
        if free < n || self.pieces.is_full() {
            self.rewrite();
        }
    }

    // Writes the text into the spare half, and makes that the live one.
    fn rewrite(&mut self)
        ensures text { table_text self.new ≡ table_text self.old }
        ensures room { table_room self.new ≡ table_room self.old }
        ensures used { length self.new.live.items ≡ length (table_text self.old) }
        ensures few { vec_len self.new.pieces.list ≡ 1 }
    {
        let text = Spelling {
            memory: &self.live,
            pieces: self.pieces.as_slice(),
        };
        self.spare.clear();
        text.append_to(&mut self.spare);
        std::mem::swap(&mut self.live, &mut self.spare);
        let len = self.size;
        self.pieces.become_one(Piece { start: 0, len });
    }
}
