// The sixteen markers, each by its number.
ghost use Rattle.std.specs.Prelude.{◌≡◌, ℕ, ◌+◌, ◌^◌, ◌<◌, slice_index, slice_index_or};
ghost use Rattle.places.specs.Edits.{growth};
ghost use Rattle.places.specs.Markers.{markers_after, markers_put_back, markers_within};

use crate::edit::Edit;
use crate::marker::{marker_after, put_one_back};
use crate::notes::Notes;

// What `of` makes of each marker, by its number and its place. The loop has the number beside the place,
// since by its number a marker stays or advances. It is no `map` of the array, which takes four times as
// long, and it is put in where it is called, so that no array is moved for it.
#[inline(always)]
pub(crate) fn of_each<T: Copy, F: Fn(usize, usize) -> T>(
    markers: [usize; 16],
    blank: T,
    of: F,
) -> [T; 16]
    requires { (k : ℕ) → k < 16 → F.pre of k (slice_index markers k) }
    ensures { (k : ℕ) (d : T) → k < 16 → F.post of k (slice_index markers k) (slice_index_or result k d) }
{
    let mut made = [blank; 16];
    for (number, m) in markers.iter().enumerate() {
        made[number] = of(number, *m);
    }
    made
}

pub(crate) fn markers_after(edit: Edit, markers: [usize; 16]) -> [usize; 16]
    requires { (k : ℕ) → k < 16 → slice_index markers k + growth edit < 2 ^ 64 }
    ensures { result ≡ markers_after edit markers }
{
    of_each(markers, 0, |number, m| marker_after(edit, number, m))
}

// The markers after the inversion of a deletion at p, by its notes.
pub(crate) fn markers_put_back(p: usize, notes: Notes, markers: [usize; 16]) -> [usize; 16]
    requires { (k : ℕ) → k < 16 → slice_index markers k + notes.count < 2 ^ 64 }
    ensures { result ≡ markers_put_back p notes.count notes.distances markers }
{
    of_each(markers, 0, |number, m| put_one_back(p, &notes, number, m))
}

// Sixteen places, each cut to the length.
pub(crate) fn markers_within(len: usize, markers: [usize; 16]) -> [usize; 16]
    ensures { result ≡ markers_within len markers }
{
    of_each(markers, 0, |_, m| m.min(len))
}
