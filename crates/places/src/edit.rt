// An edit as markers, spans and window see it: its kind, its place and its count of bytes.
ghost use Rattle.std.specs.Prelude.{◌≡◌, ◌+◌, ◌^◌, ◌<◌, ◌≤◌, nat_lt};
ghost use Rattle.places.specs.Edits.{growth, loss, len_after, place_of, reach};

use store::checks::past_end;

#[derive(Clone, Copy, PartialEq, Eq, Debug)]
pub enum Edit {
    Insertion { place: usize, count: usize },
    Deletion { place: usize, count: usize },
}

impl Edit {
    pub(crate) fn place(self) -> usize
        ensures { result ≡ place_of self }
    {
        match self {
            Edit::Insertion { place, .. } | Edit::Deletion { place, .. } => place,
        }
    }

    // Whether the edit reaches past a place; tested by subtraction, since the sum may not fit.
    pub(crate) fn reaches_past(self, end: usize) -> bool
        ensures { result ≡ nat_lt end (reach self) }
    {
        match self {
            Edit::Insertion { place, .. } => place > end,
            Edit::Deletion { place, count } => past_end(end, place, count),
        }
    }

    // How long a text of this length is after the edit.
    pub(crate) fn len_after(self, len: usize) -> usize
        requires grows { len + growth self < 2 ^ 64 }
        requires shrinks { loss self ≤ len }
        ensures { result ≡ len_after self len }
    {
        match self {
            Edit::Insertion { count, .. } => len + count,
            Edit::Deletion { count, .. } => len - count,
        }
    }
}

// Who makes an edit: a call, or an undo of earlier ones.
#[derive(Clone, Copy, PartialEq, Eq, Debug)]
pub enum Origin {
    Call,
    Undo,
}

// A check that can be put to a list of edits.
#[derive(Clone, Copy, PartialEq, Eq, Debug)]
pub enum Check {
    Place,
    Window,
    Spans(Origin),
}
