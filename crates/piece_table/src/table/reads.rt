// How a piece table's text is read.
ghost use Rattle.std.specs.Prelude.{◌≡◌};
ghost use Rattle.piece_table.specs.TableText.{table_text};

use super::PieceTable;
use crate::spelling::Spelling;

impl PieceTable {
    pub(super) fn text(&self) -> Spelling<'_>
        ensures { result ≡ table_text self.now }
    {
        Spelling {
            memory: &self.live,
            pieces: self.pieces.as_slice(),
        }
    }
}
