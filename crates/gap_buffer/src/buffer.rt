// The gap buffer and what it keeps true.
ghost use Rattle.std.specs.Prelude.{◌≤◌, vec_len};

mod edits;
mod reads;
pub mod text;

// The text is the memory without the bytes from `gap_start` up to `gap_end`, which are free.
#[derive(Drop)]
pub struct GapBuffer {
    memory: Vec<u8>,
    gap_start: usize,
    gap_end: usize,
    ghost forward: { gap_start ≤ gap_end },
    ghost within: { gap_end ≤ vec_len memory },
    ghost limit: { vec_len memory ≤ 32768 },
}
