// A gap buffer as a text store.
ghost use Rattle.std.specs.Prelude.{◌≡◌, min, [], vec_len};
ghost use Rattle.gap_buffer.specs.GapText.{gap_text, gap_room};
ghost use Rattle.std.proofs.Common.{rules};
ghost use Rattle.gap_buffer.specs.GapLength.{length_gapped};

use super::GapBuffer;
use store::checks::{MAX_CAPACITY, check_copy, check_delete, check_insert};
use store::faults::{Fault, Refusal};
use store::text_store::TextStore;

impl GapBuffer {
    // An empty text over the memory handed in, all of it the gap. Its capacity is the memory's
    // length, at most 32,768.
    pub fn new(mut memory: Vec<u8>) -> GapBuffer
        ensures text { gap_text result ≡ [] }
        ensures room { gap_room result ≡ min (vec_len memory) 32768 }
    {
        memory.truncate(MAX_CAPACITY);
        GapBuffer {
            gap_start: 0,
            gap_end: memory.len(),
            memory,
        }
    }
}

impl TextStore for GapBuffer {
    ghost text = { gap_text };

    ghost room = { gap_room };

    ghost within = { Prim.search (rules, length_gapped) };

    ghost limit = { λ buffer. buffer.limit };

    fn len(&self) -> usize {
        self.gap_start + (self.memory.len() - self.gap_end)
    }

    fn capacity(&self) -> usize {
        self.memory.len()
    }

    fn byte_at(&self, p: usize) -> Option<u8> {
        if p < self.gap_start {
            self.memory.get(p).copied()
        } else {
            self.memory[self.gap_end..].get(p - self.gap_start).copied()
        }
    }

    fn copy(&self, p: usize, n: usize, area: &mut [u8]) -> Result<(), Fault<Refusal>> {
        check_copy(self.len(), p, n, area.len())?;
        self.copy_out(p, n, area);
        Ok(())
    }

    fn insert(&mut self, p: usize, bytes: &[u8]) -> Result<(), Fault<Refusal>> {
        check_insert(self.len(), self.capacity(), p, bytes.len())?;
        self.move_gap(p);
        self.fill(bytes);
        Ok(())
    }

    fn delete(&mut self, p: usize, n: usize) -> Result<(), Fault<Refusal>> {
        check_delete(self.len(), p, n)?;
        self.move_gap(p);
        self.widen(n);
        Ok(())
    }
}
