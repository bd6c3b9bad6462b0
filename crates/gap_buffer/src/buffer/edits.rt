// Moving the gap, filling it and widening it.
ghost use Rattle.std.specs.Prelude.{◌≡◌, ◌+◌, ◌≤◌, length};
ghost use Rattle.gap_buffer.specs.GapText.{gap_text, gap_room};
ghost use Rattle.store.specs.Edits.{deleted_at, inserted_at};

use super::GapBuffer;

impl GapBuffer {
    // Puts the gap at p; only the bytes between the gap and p move.
    #[tactic(auto, using(crate::proofs::Gapped::moved_left, crate::proofs::Gapped::moved_right))]
    pub(crate) fn move_gap(&mut self, p: usize)
        requires { p ≤ length (gap_text self.old) }
        ensures text { gap_text self.new ≡ gap_text self.old }
        ensures room { gap_room self.new ≡ gap_room self.old }
        ensures at { self.new.gap_start ≡ p }
        ensures size { self.new.gap_end + self.old.gap_start ≡ p + self.old.gap_end }
    {
        let start = self.gap_start;
        let end = self.gap_end;
        if p < start {
            self.gap_end = end - (start - p);
            self.memory.copy_within(p..start, self.gap_end);
        } else {
            self.gap_end = end + (p - start);
            self.memory.copy_within(end..self.gap_end, start);
        }
        self.gap_start = p;
    }

    // Takes the bytes into the text, at the front of the gap.
    #[tactic(auto, using(crate::proofs::Gapped::filled, std::proofs::lemmas::List::with_items_is))]
    pub(crate) fn fill(&mut self, bytes: &[u8])
        requires { self.old.gap_start + length bytes.now ≤ self.old.gap_end }
        ensures text { gap_text self.new ≡ inserted_at (gap_text self.old) self.old.gap_start bytes.now }
        ensures room { gap_room self.new ≡ gap_room self.old }
        ensures long { length (gap_text self.new) ≡ length (gap_text self.old) + length bytes.now }
    {
        let start = self.gap_start;
        let filled = start + bytes.len();
        self.memory[start..filled].copy_from_slice(bytes);
        self.gap_start = filled;
    }

    // Gives the n bytes behind the gap up to it.
    #[tactic(auto, using(crate::proofs::Gapped::cut))]
    pub(crate) fn widen(&mut self, n: usize)
        requires { self.old.gap_end + n ≤ gap_room self.old }
        ensures text { gap_text self.new ≡ deleted_at (gap_text self.old) self.old.gap_start n }
        ensures room { gap_room self.new ≡ gap_room self.old }
        ensures long { length (gap_text self.new) + n ≡ length (gap_text self.old) }
    {
        self.gap_end += n;
    }
}
