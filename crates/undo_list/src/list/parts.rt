// What the parts of the list say of what comes before each group and entry.
ghost use Rattle.std.specs.Prelude.{◌≡◌, ◌≤◌, take, vec_len};
ghost use Rattle.undo_list.specs.Spell.{entries_of, last_end, start, total};

use crate::list::UndoList;

impl UndoList {
    // How many entries come before group j.
    #[tactic(auto, using(crate::proofs::Lists::start_none, crate::proofs::Lists::start_some))]
    pub(super) fn start_of(&self, j: usize) -> usize
        requires { j ≤ vec_len self.now.ends }
        ensures { result ≡ start 0 self.now.ends.items j }
    {
        if j == 0 {
            return 0;
        }
        self.ends[j - 1]
    }

    // How many entries the closed groups have.
    #[tactic(auto, using(crate::proofs::Lists::start_last, crate::proofs::Lists::ends_within))]
    pub(super) fn last_end(&self) -> usize
        ensures value { result ≡ last_end 0 self.now.ends.items }
        ensures within { result ≤ vec_len self.now.stored }
    {
        self.start_of(self.ends.len())
    }

    // How many bytes the first i entries keep.
    #[tactic(auto, using(crate::proofs::Ranges::all_kept, crate::proofs::Ranges::offset_is, crate::proofs::Ranges::sum_within))]
    pub(super) fn kept_before(&self, i: usize) -> usize
        requires { i ≤ vec_len self.now.stored }
        ensures value { result ≡ total (take i (entries_of self.now.stored.items)) }
        ensures few { result ≤ vec_len self.now.kept }
    {
        if i == self.stored.len() {
            return self.kept.len();
        }
        self.stored[i].before
    }
}
