// Reading the text on both sides of the gap.
ghost use Rattle.std.specs.Prelude.{◌≡◌, ◌+◌, ◌≤◌, length};
ghost use Rattle.gap_buffer.specs.GapText.{gap_text};
ghost use Rattle.store.specs.Edits.{copied};

use super::GapBuffer;

impl GapBuffer {
    // Copies n bytes of the text from p on: those before the gap, then those behind it.
    #[tactic(auto, using(crate::proofs::Gapped::copied_out, crate::specs::GapLength::length_gapped))]
    pub(crate) fn copy_out(&self, p: usize, n: usize, area: &mut [u8])
        requires place { p + n ≤ length (gap_text self.now) }
        requires fits { n ≤ length area.old }
        ensures { area.new ≡ copied (gap_text self.now) p n area.old }
    {
        let front = self.gap_start.saturating_sub(p).min(n);
        let from = self.gap_end + (p + front).saturating_sub(self.gap_start);
        area[..front].copy_from_slice(&self.memory[p..p + front]);
        area[front..n].copy_from_slice(&self.memory[from..from + (n - front)]);
    }
}
