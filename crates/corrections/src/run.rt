// Doing a list of calls on a store, one after the other.
ghost use Rattle.std.specs.Prelude.{◌≡◌, map, IfOk, OnErr};
ghost use Rattle.corrections.specs.Replies.{call_reply, call_text, copy_reply, reply_of};
ghost use Rattle.corrections.specs.Runs.{Answered, Stopped};

use crate::calls::{Answer, Call};
use std::alloc::{AllocError, Global};
use store::checks::MAX_CAPACITY;
use store::text_store::TextStore;

// Does the calls in their order, and answers each. Where memory is wanting it stops between two
// calls, and those before have been done.
// Not one with the loop over a session: a trait or closure for both, with its contract, outweighs it.
#[tactic(auto, using(crate::proofs::Runs::text_none, crate::proofs::Runs::replies_none))]
pub(crate) fn perform_all<S: TextStore>(
    heap: Global,
    store: &mut S,
    calls: &[Call],
) -> Result<Vec<Answer>, AllocError>
    ensures done { IfOk result (λ answers. Answered (S.text store.old) (S.room store.old) calls.now answers (S.text store.new)) }
    ensures stopped { OnErr result (Stopped (S.text store.old) (S.room store.old) calls.now (S.text store.new)) }
    ensures room { S.room store.new ≡ S.room store.old }
{
    let mut answers = Vec::with_capacity(heap, calls.len())?;
    for call in calls {
        let answer = perform(heap, store, call)?;
        answers.push_reserved(answer);
    }
    Ok(answers)
}

// Does one call. Only a copy can want memory, and it changes nothing.
fn perform<S: TextStore>(heap: Global, store: &mut S, call: &Call) -> Result<Answer, AllocError>
    ensures reply { IfOk result (λ a. reply_of a ≡ call_reply (S.text store.old) (S.room store.old) call.now) }
    ensures text { S.text store.new ≡ call_text (S.text store.old) (S.room store.old) call.now }
    ensures room { S.room store.new ≡ S.room store.old }
{
    match call {
        Call::Insert { place, bytes } => Ok(Answer::from(store.insert(*place, bytes))),
        Call::Delete { place, count } => Ok(Answer::from(store.delete(*place, *count))),
        Call::Length => Ok(Answer::Number(store.len())),
        Call::Capacity => Ok(Answer::Number(store.capacity())),
        Call::ByteAt { place } => Ok(Answer::Byte(store.byte_at(*place))),
        Call::Copy { place, count } => copy_out(heap, store, *place, *count),
    }
}

// Copies n bytes from p on. No accepted copy has more than 32,768 bytes, so an area of that many
// is never too short. Not one with a session's copy: the answers are of two types.
fn copy_out<S: TextStore>(heap: Global, store: &S, p: usize, n: usize) -> Result<Answer, AllocError>
    ensures { IfOk result (λ a. reply_of a ≡ copy_reply (S.text store.now) p n) }
{
    let mut area = vec![in heap; 0; n.min(MAX_CAPACITY)]?;
    let res = store.copy(p, n, &mut area);
    Ok(res.map_or_else(Answer::Refused, |()| Answer::Bytes(area)))
}
