// How a session refuses a call: by which check, and at which place. A store's faults convert.
ghost use Rattle.std.specs.Prelude.{◌≡◌, Some, refl};
ghost use Rattle.places.specs.Refusals.{number, layer, lifted};
ghost use Rattle.places.specs.Shown.{check_name};

use std::fmt;
pub use store::faults::Refuses;
use store::faults::{OverStore, Refusal as StoreRefusal};

// The checks of a store and of the session over it, in the order in which they run. A store's four stand
// here again: its own type keeps a store from answering with a check that it does not make.
#[derive(Clone, Copy, PartialEq, Eq, Debug)]
pub enum Refusal {
    // a call that the session's state does not admit
    State,
    // a marker over 15, or a number of groups out of range
    Argument,
    // an insertion or deletion of no bytes, or of more than 4,096
    Count,
    // a place, or the end of a range, past the text's length; a range that runs backward
    Place,
    // an area shorter than the bytes asked for
    Area,
    // nothing there to undo, redo, select, drop or unprotect
    Presence,
    // a ninth span
    SpanTable,
    // an edit that reaches outside the window
    Window,
    // an edit that meets a read-only span
    Spans,
    // an insertion that would make the text longer than the capacity
    Capacity,
    // a limit of the undo list
    UndoList,
}

impl Refuses for Refusal {
    ghost number = { number };

    ghost layer = { layer };

    ghost name = { check_name };

    ghost shown = { λ x. refl };

    fn number(self) -> u8 {
        match self {
            Refusal::State => 1,
            Refusal::Argument => 2,
            Refusal::Count => 3,
            Refusal::Place => 4,
            Refusal::Area => 5,
            Refusal::Presence => 6,
            Refusal::SpanTable => 7,
            Refusal::Window => 8,
            Refusal::Spans => 9,
            Refusal::Capacity => 10,
            Refusal::UndoList => 11,
        }
    }

    // A store's checks are layer 1, the session's own layer 2.
    fn layer(self) -> u8 {
        match self {
            Refusal::Count | Refusal::Place | Refusal::Area | Refusal::Capacity => 1,
            Refusal::State | Refusal::Argument | Refusal::Presence => 2,
            Refusal::SpanTable | Refusal::Window | Refusal::Spans | Refusal::UndoList => 2,
        }
    }
}

impl From<StoreRefusal> for Refusal {
    ghost from_gives = { λ why r. r ≡ lifted why };

    fn from(why: StoreRefusal) -> Refusal {
        match why {
            StoreRefusal::Count => Refusal::Count,
            StoreRefusal::Place => Refusal::Place,
            StoreRefusal::Area => Refusal::Area,
            StoreRefusal::Capacity => Refusal::Capacity,
        }
    }
}

// So a store's fault is one of a session by `From`.
impl OverStore for Refusal {}

// The name of the check in the table of refusals.
impl fmt::Display for Refusal {
    ghost output = { λ x. Some (check_name x) };

    fn fmt<W: fmt::Write>(&self, f: &mut fmt::Formatter<W>) -> fmt::Result {
        match self {
            Refusal::State => write!(f, "state"),
            Refusal::Argument => write!(f, "argument"),
            Refusal::Count => write!(f, "count"),
            Refusal::Place => write!(f, "place"),
            Refusal::Area => write!(f, "area"),
            Refusal::Presence => write!(f, "presence"),
            Refusal::SpanTable => write!(f, "span table"),
            Refusal::Window => write!(f, "window"),
            Refusal::Spans => write!(f, "spans"),
            Refusal::Capacity => write!(f, "capacity"),
            Refusal::UndoList => write!(f, "undo list"),
        }
    }
}

// A refused call of a session: by which check, and the call's place.
pub type Fault = store::faults::Fault<Refusal>;
