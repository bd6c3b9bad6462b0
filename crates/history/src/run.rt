// A list of calls, done on a session that is made over a store.
ghost use Rattle.std.specs.Prelude.{IfOk, OnErr};
ghost use Rattle.session.specs.View.{view};
ghost use Rattle.history.specs.Laws.{RunsKeep};
ghost use Rattle.history.specs.Outcomes.{Ran, RanFrom};
ghost use Rattle.history.specs.Runs.{Answered, Stopped};

use crate::outcome::{Finished, Unfinished};
use crate::perform::perform;
use calls::answer::Answer;
use calls::call::Call;
use session::session::Session;
use std::alloc::{AllocError, Global};
use store::text_store::TextStore;

// Does the calls in their order, and answers each. Where memory is wanting it stops between two calls,
// and those before have been done.
// Not one with the loop over a store: a trait or closure for both, with its contract, outweighs it.
pub fn perform_all<S: TextStore>(
    heap: Global,
    session: &mut Session<S>,
    calls: &[Call],
) -> Result<Vec<Answer>, AllocError>
    ensures done { IfOk result (λ answers. Answered (view session.old) calls.now answers (view session.new)) }
    ensures stopped { OnErr result (Stopped (view session.old) calls.now (view session.new)) }
{
    let mut answers = Vec::with_capacity(heap, calls.len())?;
    for call in calls {
        let answer = perform(heap, session, call)?;
        answers.push_reserved(answer);
    }
    Ok(answers)
}

// Makes a session over the store, and does the calls on it.
#[tactic(auto, using(crate::proofs::Kept::runs_keep, crate::proofs::Runs::ran))]
pub fn run_over<S: TextStore>(
    heap: Global,
    store: S,
    calls: &[Call],
) -> Result<Finished<S>, Unfinished<S>>
    ensures run { Ran store calls.now result }
    ensures law { RunsKeep }
{
    let session = Session::new(heap, store).map_err(|store| Unfinished::Unmade { store })?;
    run_on(heap, session, calls)
}

fn run_on<S: TextStore>(
    heap: Global,
    mut session: Session<S>,
    calls: &[Call],
) -> Result<Finished<S>, Unfinished<S>>
    ensures { RanFrom (view session) calls.now result }
{
    // a match and no map_err: both arms take the session
    match perform_all(heap, &mut session, calls) {
        Ok(answers) => Ok(Finished { session, answers }),
        Err(_) => Err(Unfinished::Interrupted { session }),
    }
}
