// Where a session stands: its record of places, and its state.
ghost use Rattle.std.specs.Prelude.{◌≡◌, ◌≤◌, length};
ghost use Rattle.places.specs.Model.{model};
ghost use Rattle.session.specs.States.{below};
ghost use Rattle.session.specs.View.{view};
ghost use Rattle.session.specs.World.{in_state, with_places};

use crate::session::Session;
use crate::state::State;
use places::record::Places;
use store::text_store::TextStore;

impl<S: TextStore> Session<S> {
    // Goes over to a state.
    #[tactic(auto, unfolding(crate::specs::View::view))]
    pub(super) fn go_to(&mut self, next: State)
        requires { below next ≤ below self.old.state }
        ensures { view self.new ≡ in_state next (view self.old) }
    {
        self.state = next;
    }

    // Takes a record of places for the text's length as its own.
    #[tactic(auto, unfolding(crate::specs::View::view))]
    pub(super) fn place(&mut self, places: Places)
        requires { places.len ≡ length (S.TextStore.text self.old.store) }
        ensures view { view self.new ≡ with_places (model places) (view self.old) }
        ensures state { self.new.state ≡ self.old.state }
    {
        self.places = places;
    }
}
