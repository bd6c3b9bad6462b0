// What a deletion notes of the markers.
ghost use Rattle.std.specs.Prelude.{◌≡◌, ℕ, ◌<◌, true, None, slice_index_or};
ghost use Rattle.places.specs.Near.{near};

// The notes of a deletion of `count` bytes: by the marker's number, its distance from the place of
// the deletion, where it stood in the range. No distance is beyond the count.
#[derive(Clone, Copy)]
pub struct Notes {
    pub count: usize,
    pub distances: [Option<usize>; 16],
    ghost near: { (k : ℕ) → k < 16 → near count (slice_index_or distances k None) ≡ true },
}
