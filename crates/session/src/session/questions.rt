// The questions. None changes the session.
ghost use Rattle.std.specs.Prelude.{◌≡◌, ◌≤◌, length, OnOk, slice_index};
ghost use Rattle.places.specs.Checks.{marker_check};
ghost use Rattle.places.specs.Refusals.{outcome};
ghost use Rattle.store.specs.Edits.{copy_check, byte_at, after_copy, answer, Copied};
ghost use Rattle.undo_list.specs.Groups.{entries_in, groups_in};
ghost use Rattle.session.specs.View.{view};

use crate::session::Session;
use places::faults::Fault;
use store::faults::{Fault as FaultOf, Refusal as StoreRefusal};
use store::text_store::TextStore;

impl<S: TextStore> Session<S> {
    #[tactic(auto, unfolding(crate::specs::View::view))]
    pub fn len(&self) -> usize
        ensures { result ≡ length (view self.now).text }
    {
        self.store.len()
    }

    #[tactic(auto, unfolding(crate::specs::View::view))]
    pub fn capacity(&self) -> usize
        ensures { result ≡ (view self.now).room }
    {
        self.store.capacity()
    }

    // The byte at p, or absence from the length on.
    #[tactic(auto, unfolding(crate::specs::View::view))]
    pub fn byte_at(&self, p: usize) -> Option<u8>
        ensures { result ≡ byte_at (view self.now).text p }
    {
        self.store.byte_at(p)
    }

    // Writes n bytes from p on into the front of the area; its rest stays.
    #[tactic(auto, unfolding(crate::specs::View::view))]
    pub fn copy(&self, p: usize, n: usize, area: &mut [u8]) -> Result<(), FaultOf<StoreRefusal>>
        ensures value { result ≡ answer (copy_check (length (view self.now).text) p n (length area.old)) p }
        ensures area { area.new ≡ after_copy (view self.now).text p n area.old }
        ensures done { OnOk result (Copied (view self.now).text p n area.old area.new) }
        ensures few { OnOk result (n ≤ 32768) }
    {
        self.store.copy(p, n, area)
    }

    // Where a marker stands.
    #[tactic(auto, unfolding(crate::specs::View::view))]
    pub fn marker(&self, number: usize) -> Result<usize, Fault>
        ensures { result ≡ outcome (marker_check number) 0 (slice_index (view self.now).places.markers number) }
    {
        self.places.marker(number)
    }

    // All sixteen markers.
    #[tactic(auto, unfolding(crate::specs::View::view))]
    pub fn markers(&self) -> [usize; 16]
        ensures { result ≡ (view self.now).places.markers }
    {
        self.places.markers
    }

    // How many bytes the window leaves out before and behind: a pair, as the rules answer it, and no type
    // of its own, since each count is set, carried and compared alone.
    #[tactic(auto, unfolding(crate::specs::View::view))]
    pub fn window(&self) -> (usize, usize)
        ensures before { result.0 ≡ (view self.now).places.before }
        ensures behind { result.1 ≡ (view self.now).places.behind }
    {
        let places = self.places;
        (places.before, places.behind)
    }

    // How many spans there are.
    #[tactic(auto, unfolding(crate::specs::View::view))]
    pub fn spans(&self) -> usize
        ensures { result ≡ length (view self.now).places.spans }
    {
        self.places.spans.len()
    }

    // How many entries the undo list has.
    #[tactic(auto, unfolding(crate::specs::View::view))]
    pub fn entries(&self) -> usize
        ensures { result ≡ entries_in (view self.now).groups }
    {
        self.list.entries()
    }

    // How many groups the undo list has, the open one counted.
    #[tactic(auto, unfolding(crate::specs::View::view))]
    pub fn groups(&self) -> usize
        ensures { result ≡ groups_in (view self.now).groups }
    {
        self.list.groups()
    }
}
