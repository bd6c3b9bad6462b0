// One marker: how an edit carries it, what a deletion notes of it, and how the inversion of that
// deletion puts it back. An edit's place p and count n are two numbers here, as in the rules: a type for
// the two would be built at each call only to be taken apart in it.
ghost use Rattle.std.specs.Prelude.{◌≡◌, ◌+◌, ◌^◌, ◌<◌, None, slice_index_or};
ghost use Rattle.places.specs.Edits.{growth};
ghost use Rattle.places.specs.Markers.{marker_inserted, marker_deleted, marker_after, noted, put_back};

use crate::edit::Edit;
use crate::notes::Notes;

// Markers below this number stay when text is inserted at them; the others advance.
const FIRST_ADVANCING: usize = 8;

pub(crate) fn marker_inserted(p: usize, n: usize, number: usize, m: usize) -> usize
    requires { m + n < 2 ^ 64 }
    ensures { result ≡ marker_inserted p n number m }
{
    if m < p || (m == p && number < FIRST_ADVANCING) {
        m
    } else {
        m + n
    }
}

fn marker_deleted(p: usize, n: usize, m: usize) -> usize
    ensures { result ≡ marker_deleted p n m }
{
    if m <= p {
        return m;
    }
    if m - p < n { p } else { m - n }
}

pub(crate) fn marker_after(edit: Edit, number: usize, m: usize) -> usize
    requires { m + growth edit < 2 ^ 64 }
    ensures { result ≡ marker_after edit number m }
{
    match edit {
        Edit::Insertion { place, count } => marker_inserted(place, count, number, m),
        Edit::Deletion { place, count } => marker_deleted(place, count, m),
    }
}

// The distance from p of a marker that stands from p to p + n, both ends included.
pub(crate) fn note_one(p: usize, n: usize, m: usize) -> Option<usize>
    ensures { result ≡ noted p n m }
{
    m.checked_sub(p).filter(|distance| *distance <= n)
}

// The marker of this number, at m just before: where it was noted and stands at p, it goes to its
// distance from p; else it is carried.
pub(crate) fn put_one_back(p: usize, notes: &Notes, number: usize, m: usize) -> usize
    requires number { number < 16 }
    requires fits { m + notes.now.count < 2 ^ 64 }
    ensures { result ≡ put_back p notes.now.count number (slice_index_or notes.now.distances number None) m }
{
    match notes.distances[number] {
        Some(distance) if m == p => p + distance,
        _ => marker_inserted(p, notes.count, number, m),
    }
}
