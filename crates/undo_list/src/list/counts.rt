// How much an undo list holds.
ghost use Rattle.std.specs.Prelude.{◌≡◌, ◌≤◌, false, [], length};
ghost use Rattle.undo_list.specs.Groups.{entries_in, bytes_in, groups_in, has_open};
ghost use Rattle.undo_list.specs.View.{view};

use crate::list::UndoList;

impl UndoList {
    // How many entries there are.
    #[tactic(auto, using(crate::proofs::Lists::entries_count))]
    pub fn entries(&self) -> usize
        ensures value { result ≡ entries_in (view self.now) }
        ensures few { result ≤ 512 }
    {
        self.stored.len()
    }

    // How many bytes the deletions keep.
    #[tactic(auto, using(crate::proofs::Lists::bytes_count))]
    pub fn bytes(&self) -> usize
        ensures value { result ≡ bytes_in (view self.now) }
        ensures few { result ≤ 16384 }
    {
        self.kept.len()
    }

    // How many groups there are, the open one counted.
    pub fn groups(&self) -> usize
        ensures value { result ≡ groups_in (view self.now) }
        ensures few { result ≤ 256 }
    {
        let closed = self.closed_groups();
        if self.is_open() { closed + 1 } else { closed }
    }

    // How many groups are closed.
    #[tactic(auto, using(crate::proofs::Lists::closed_count, crate::proofs::Lists::groups_count))]
    pub fn closed_groups(&self) -> usize
        ensures value { result ≡ length (view self.now).closed }
        ensures few { result ≤ 256 }
        ensures all { groups_in (view self.now) ≤ 256 }
    {
        self.ends.len()
    }

    // Whether a group is open.
    #[tactic(auto, using(crate::proofs::Lists::open_test, crate::proofs::Lists::not_open))]
    pub fn is_open(&self) -> bool
        ensures value { result ≡ has_open (view self.now) }
        ensures none { result ≡ false → (view self.now).opened ≡ [] }
    {
        self.last_end() < self.entries()
    }
}
