// What a list of edits counts.
ghost use Rattle.std.specs.Prelude.{◌≡◌, ◌+◌};
ghost use Rattle.places.specs.Edits.{growth, loss};
ghost use Rattle.store.specs.Edits.{answer};
ghost use Rattle.turns.specs.Faults.{counts_check};
ghost use Rattle.turns.specs.Rests.{summed};

use places::edit::Edit;
use places::faults::Fault;
use undo_list::limits::check_count;

// How many bytes an edit puts in or takes out.
fn size(edit: Edit) -> usize
    ensures { result ≡ growth edit + loss edit }
{
    match edit {
        Edit::Insertion { place: _, count } | Edit::Deletion { place: _, count } => count,
    }
}

// Count, to all the edits.
#[tactic(auto, using(crate::proofs::Turned::count_refused, crate::proofs::Turned::count_passed, crate::proofs::Turned::all_done))]
pub(crate) fn check_counts(edits: &[Edit]) -> Result<(), Fault>
    ensures { result ≡ answer (counts_check edits.now) 0 }
{
    for edit in edits {
        check_count(size(*edit), 0)?;
    }
    Ok(())
}

// How many bytes an edit takes out.
fn loss(edit: Edit) -> usize
    ensures { result ≡ loss edit }
{
    match edit {
        Edit::Insertion { place: _, count: _ } => 0,
        Edit::Deletion { place: _, count } => count,
    }
}

// How many bytes all the edits take out; none where the machine cannot hold the sum.
#[tactic(auto, using(crate::proofs::Turned::loss_more, crate::proofs::Turned::loss_too_large, crate::proofs::Turned::sum_done, crate::proofs::Turned::sum_held, crate::proofs::Turned::sum_too_large))]
pub(crate) fn losses(edits: &[Edit]) -> Option<usize>
    ensures { result ≡ summed edits.now }
{
    let mut sum = 0usize;
    for edit in edits {
        sum = sum.checked_add(loss(*edit))?;
    }
    Some(sum)
}
