// Markers, spans and window. The five have one shape: over one function, a closure for what each does to
// the record would bring its own contract into every proof.
ghost use Rattle.std.specs.Prelude.{◌≡◌};
ghost use Rattle.store.specs.Edits.{answer};
ghost use Rattle.session.specs.Calls.{marker_set_check, set_world, protect_call_check, protect_world, unprotect_call_check, unprotect_world, narrow_check, narrow_world, widen_check, widen_world};
ghost use Rattle.session.specs.View.{view};

use crate::next_state::next_state;
use crate::session::Session;
use crate::state::Kind;
use places::faults::Fault;
use store::text_store::TextStore;

impl<S: TextStore> Session<S> {
    // Puts a marker at p: state, argument, place.
    #[tactic(auto, unfolding(crate::specs::View::view, crate::specs::Calls::marker_set_check, crate::specs::Calls::set_world))]
    pub fn set(&mut self, marker: usize, p: usize) -> Result<(), Fault>
        ensures value { result ≡ answer (marker_set_check (view self.old) marker p) p }
        ensures world { view self.new ≡ set_world (view self.old) marker p }
    {
        let next = next_state(self.state, Kind::Set, p)?;
        let places = self.places.set(marker, p)?;
        self.place(places);
        self.go_to(next);
        Ok(())
    }

    // Adds a read-only span: state, place, span table.
    #[tactic(auto, unfolding(crate::specs::View::view, crate::specs::Calls::protect_call_check, crate::specs::Calls::protect_world))]
    pub fn protect(&mut self, s: usize, e: usize) -> Result<(), Fault>
        ensures value { result ≡ answer (protect_call_check (view self.old) s e) s }
        ensures world { view self.new ≡ protect_world (view self.old) s e }
    {
        let next = next_state(self.state, Kind::Protect, s)?;
        let places = self.places.protect(s, e)?;
        self.place(places);
        self.go_to(next);
        Ok(())
    }

    // Removes all spans that lie wholly in s to e: state, place, presence.
    #[tactic(auto, unfolding(crate::specs::View::view, crate::specs::Calls::unprotect_call_check, crate::specs::Calls::unprotect_world))]
    pub fn unprotect(&mut self, s: usize, e: usize) -> Result<(), Fault>
        ensures value { result ≡ answer (unprotect_call_check (view self.old) s e) s }
        ensures world { view self.new ≡ unprotect_world (view self.old) s e }
    {
        let next = next_state(self.state, Kind::Unprotect, s)?;
        let places = self.places.unprotect(s, e)?;
        self.place(places);
        self.go_to(next);
        Ok(())
    }

    // Fixes the window's counts: state, place.
    #[tactic(auto, unfolding(crate::specs::View::view, crate::specs::Calls::narrow_check, crate::specs::Calls::narrow_world))]
    pub fn narrow(&mut self, s: usize, e: usize) -> Result<(), Fault>
        ensures value { result ≡ answer (narrow_check (view self.old) s e) s }
        ensures world { view self.new ≡ narrow_world (view self.old) s e }
    {
        let next = next_state(self.state, Kind::Narrow, s)?;
        let places = self.places.narrow(s, e)?;
        self.place(places);
        self.go_to(next);
        Ok(())
    }

    // Sets the window's counts to 0: state.
    #[tactic(auto, unfolding(crate::specs::View::view, crate::specs::Calls::widen_check, crate::specs::Calls::widen_world))]
    pub fn widen(&mut self) -> Result<(), Fault>
        ensures value { result ≡ answer (widen_check (view self.old)) 0 }
        ensures world { view self.new ≡ widen_world (view self.old) }
    {
        let next = next_state(self.state, Kind::Widen, 0)?;
        let places = self.places.widen();
        self.place(places);
        self.go_to(next);
        Ok(())
    }
}
