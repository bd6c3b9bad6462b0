// A piece table as a text store: the checks of each call, and then its work.
ghost use Rattle.piece_table.specs.TableText.{table_text, table_room};
ghost use Rattle.std.proofs.Common.{rules};

use super::PieceTable;
use store::checks::{check_copy, check_delete, check_insert};
use store::faults::{Fault, Refusal};
use store::text_store::TextStore;

impl TextStore for PieceTable {
    ghost text = { table_text };

    ghost room = { table_room };

    ghost within = { Prim.search rules };

    ghost limit = { λ table. table.limit };

    fn len(&self) -> usize {
        self.size
    }

    fn capacity(&self) -> usize {
        self.room
    }

    fn byte_at(&self, p: usize) -> Option<u8> {
        (p < self.len()).then(|| self.text().byte(p))
    }

    fn copy(&self, p: usize, n: usize, area: &mut [u8]) -> Result<(), Fault<Refusal>> {
        check_copy(self.len(), p, n, area.len())?;
        self.text().copy_out(p, n, area);
        Ok(())
    }

    fn insert(&mut self, p: usize, bytes: &[u8]) -> Result<(), Fault<Refusal>> {
        let len = self.len();
        check_insert(len, self.capacity(), p, bytes.len())?;
        self.put(p, bytes);
        Ok(())
    }

    fn delete(&mut self, p: usize, n: usize) -> Result<(), Fault<Refusal>> {
        check_delete(self.len(), p, n)?;
        self.cut(p, n);
        Ok(())
    }
}
