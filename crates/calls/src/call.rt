// A call that a list can hold.
#[derive(Drop)]
pub enum Call {
    Insert { place: usize, bytes: Vec<u8> },
    Delete { place: usize, count: usize },
    Set { marker: usize, place: usize },
    Boundary,
    // drops so many of the oldest closed groups
    Trim { groups: usize },
    Protect { start: usize, end: usize },
    Unprotect { start: usize, end: usize },
    Narrow { start: usize, end: usize },
    Widen,
    Length,
    Capacity,
    ByteAt { place: usize },
    // its area has 32,768 bytes, as many as the longest text
    Copy { place: usize, count: usize },
    Marker { marker: usize },
    Window,
    Spans,
    Entries,
    Groups,
}
