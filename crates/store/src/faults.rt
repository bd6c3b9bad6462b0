// How a layer refuses a call: by which check, and at which place.
ghost use Rattle.std.specs.Prelude.{◌≡◌, ℕ, List, Some, refl};
ghost use Rattle.store.specs.Refusals.{number, layer, fault_at};
ghost use Rattle.store.specs.Shown.{check_name, shown_fault};

use std::fmt;

// What a layer refuses a call by. Each check has a number and a name in the table of refusals, and
// belongs to a layer.
pub trait Refuses: Copy + fmt::Display {
    ghost number: { Self → ℕ };

    ghost layer: { Self → ℕ };

    ghost name: { Self → List ℕ };

    fn number(self) -> u8
        ensures { result ≡ number self };

    fn layer(self) -> u8
        ensures { result ≡ layer self };

    // The fault of a call that this check refuses. Every fault is built here.
    fn at(self, place: usize) -> Fault<Self>
        ensures { result ≡ fault_at self place }
    {
        Fault {
            refusal: self,
            place,
        }
    }

    // It is printed as its name.
    ghost shown: { (x : Self) → Self.output x ≡ Some (name x) };
}

// A refused call: by which check, and the call's place.
#[derive(Clone, Copy, PartialEq, Eq, Debug)]
pub struct Fault<R> {
    pub refusal: R,
    pub place: usize,
}

impl<R> Fault<R> {
    // The same fault as one of a layer above, whose checks have those of this layer among them.
    pub fn lift<T: Refuses + From<R>>(self) -> Fault<T>
        ensures refusal { T.from_gives self.refusal result.refusal }
        ensures place { result.place ≡ self.place }
    {
        T::from(self.refusal).at(self.place)
    }
}

// The refusals of a layer above the stores, which have a store's among them.
pub trait OverStore: Refuses + From<Refusal> {}

// A store's fault becomes one of a layer above by `?` too.
impl<R: OverStore> From<Fault<Refusal>> for Fault<R> {
    ghost from_gives = { λ f r. R.from_gives f.refusal r.refusal × (r.place ≡ f.place) };

    fn from(fault: Fault<Refusal>) -> Fault<R> {
        fault.lift()
    }
}

// As "4 (place), layer 1, place 99".
impl<R: Refuses> fmt::Display for Fault<R> {
    ghost output = { λ f. Some (shown_fault R.number R.layer R.name f) };

    fn fmt<W: fmt::Write>(&self, f: &mut fmt::Formatter<W>) -> fmt::Result {
        let refusal = self.refusal;
        let number = refusal.number();
        let layer = refusal.layer();
        let place = self.place;
        write!(f, "{number} ({refusal}), layer {layer}, place {place}")
    }
}

// The checks of a store, in the order in which they run.
#[derive(Clone, Copy, PartialEq, Eq, Debug)]
pub enum Refusal {
    // an insertion or deletion of no bytes, or of more than 4,096
    Count,
    // a place, or the end of a range, past the text's length
    Place,
    // an area shorter than the bytes asked for
    Area,
    // an insertion that would make the text longer than the capacity
    Capacity,
}

impl Refuses for Refusal {
    ghost number = { number };

    ghost layer = { layer };

    ghost name = { check_name };

    ghost shown = { λ x. refl };

    fn number(self) -> u8 {
        match self {
            Refusal::Count => 3,
            Refusal::Place => 4,
            Refusal::Area => 5,
            Refusal::Capacity => 10,
        }
    }

    // The store is layer 1.
    fn layer(self) -> u8 {
        match self {
            Refusal::Count | Refusal::Place | Refusal::Area | Refusal::Capacity => 1,
        }
    }
}

// The name of the check in the table of refusals.
impl fmt::Display for Refusal {
    ghost output = { λ x. Some (check_name x) };

    fn fmt<W: fmt::Write>(&self, f: &mut fmt::Formatter<W>) -> fmt::Result {
        match self {
            Refusal::Count => write!(f, "count"),
            Refusal::Place => write!(f, "place"),
            Refusal::Area => write!(f, "area"),
            Refusal::Capacity => write!(f, "capacity"),
        }
    }
}
