// A session rests, stands in a chain of undos and redos, or has a change open; and the calls, as far
// as this matters for them.

#[derive(Clone, Copy, PartialEq, Eq, Debug)]
pub enum State {
    Rest,
    // at a place: so many groups are below it
    Chain { place: usize },
    Change,
}

#[derive(Clone, Copy, PartialEq, Eq, Debug)]
pub enum Kind {
    Insert,
    Delete,
    Set,
    Boundary,
    // an undo or redo that leads to a place
    Undo { place: usize },
    Redo { place: usize },
    RegionUndo,
    Trim,
    Protect,
    Unprotect,
    Narrow,
    Widen,
    Open,
    Accept,
    Cancel,
    Replay,
    Question,
}
