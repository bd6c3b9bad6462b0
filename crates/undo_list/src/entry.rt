// One entry of the undo list, and how the list stores it.
ghost use Rattle.std.specs.Prelude.{◌≡◌, ℕ, ◌<◌, ◌≤◌, true};
ghost use Rattle.places.specs.Near.{near};
ghost use Rattle.undo_list.specs.Kinds.{note, kept_of};

use crate::kind::Kind;

// An entry holds place and count. No note of a marker has a distance beyond the count.
#[derive(Clone, Copy)]
pub struct Entry {
    pub place: usize,
    pub count: usize,
    pub kind: Kind,
    ghost some: { 1 ≤ count },
    ghost few: { count ≤ 4096 },
    ghost near: { (k : ℕ) → k < 16 → near count (note kind k) ≡ true },
}

impl Entry {
    // How many bytes it keeps.
    pub fn kept_count(self) -> usize
        ensures { result ≡ kept_of self.kind self.count }
    {
        match self.kind {
            Kind::Insertion => 0,
            Kind::Deletion { distances: _ } => self.count,
        }
    }
}

// An entry as the list stores it, with how many kept bytes come before it.
#[derive(Clone, Copy)]
pub(crate) struct Stored {
    pub(crate) entry: Entry,
    pub(crate) before: usize,
}
