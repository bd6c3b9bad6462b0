// What an entry of the undo list is of: an insertion, or a deletion with its notes of the markers.
// No `Option` of notes: an insertion is an edit of its own, and not a deletion's absence.

#[derive(Clone, Copy)]
pub enum Kind {
    Insertion,
    // by the marker's number, its distance from the place, where it stood in the range
    Deletion { distances: [Option<usize>; 16] },
}
