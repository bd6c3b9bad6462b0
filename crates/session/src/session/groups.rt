// The undo list's own calls: a boundary, and a trim.
ghost use Rattle.std.specs.Prelude.{◌≡◌};
ghost use Rattle.store.specs.Edits.{answer};
ghost use Rattle.session.specs.Calls.{boundary_check, boundary_world, trim_call_check, trim_world};
ghost use Rattle.session.specs.View.{view};

use crate::next_state::next_state;
use crate::session::Session;
use crate::state::Kind;
use places::faults::Fault;
use store::text_store::TextStore;

impl<S: TextStore> Session<S> {
    // Closes the open group, if there is one: state.
    #[tactic(auto, unfolding(crate::specs::View::view, crate::specs::Calls::boundary_check, crate::specs::Calls::boundary_world))]
    pub fn boundary(&mut self) -> Result<(), Fault>
        ensures value { result ≡ answer (boundary_check (view self.old)) 0 }
        ensures world { view self.new ≡ boundary_world (view self.old) }
    {
        let next = next_state(self.state, Kind::Boundary, 0)?;
        self.list.close();
        self.go_to(next);
        Ok(())
    }

    // Drops the k oldest closed groups: state, argument, presence.
    #[tactic(auto, unfolding(crate::specs::View::view, crate::specs::Calls::trim_call_check, crate::specs::Calls::trim_world))]
    pub fn trim(&mut self, k: usize) -> Result<(), Fault>
        ensures value { result ≡ answer (trim_call_check (view self.old) k) 0 }
        ensures world { view self.new ≡ trim_world (view self.old) k }
    {
        let next = next_state(self.state, Kind::Trim, 0)?;
        self.list.trim(k)?;
        self.go_to(next);
        Ok(())
    }
}
