// What every undo list keeps true, for those that build on it.
ghost use Rattle.undo_list.specs.Laws.{WellKept};
ghost use Rattle.undo_list.specs.View.{view};

use crate::list::UndoList;

impl UndoList {
    // No closed group is empty, every entry fits, and no limit is passed.
    pub fn well_kept(&self)
        ensures { WellKept (view self.now) }
    {}
}
