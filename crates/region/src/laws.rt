// What undo in a region promises of every text and all edits. Each function does nothing: its contract is
// the statement.
ghost use Rattle.region.specs.Laws.{Carries, Commutes, RegionLaw, WalkedAlike};

// Where an edit is carried past a newer one, the newer made first and the older second, each at its new
// place, both fit and leave the same text. Neither changes but for its place.
pub fn commutes()
    ensures { Commutes }
{}

// The same where it is carried past a list of newer edits: they are made without it, and then it is.
pub fn carries()
    ensures { Carries }
{}

// Undo in a region, over all groups of edits that fit a text one after the other: the inverses of the
// edits that the walk chooses, newest first, fit the text that the edits lead to. They leave the text that
// the edits which stand would have made alone. Every edit either stands or is chosen, and no byte before
// the region or behind it changes.
pub fn region_law()
    ensures { RegionLaw }
{}

// The walk looks at the kind, the place and the count of an entry, and at nothing else: a map between
// entries that keeps these, and that moves an entry as its image is moved, maps the one walk to the other.
// So what holds of edits with their bytes holds of the entries of a list that keeps fewer of them.
pub fn walked_alike<E, F>()
    ensures { WalkedAlike E F }
{}
