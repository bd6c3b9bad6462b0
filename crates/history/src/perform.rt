// Doing one call on a session, whichever it is.
ghost use Rattle.std.specs.Prelude.{◌≡◌, IfOk};
ghost use Rattle.calls.specs.Replies.{reply_of, window};
ghost use Rattle.calls.specs.Said.{said_by};
ghost use Rattle.session.specs.View.{view};
ghost use Rattle.history.specs.Steps.{reply, step, copy_reply};

use calls::answer::Answer;
use calls::call::Call;
use session::session::Session;
use std::alloc::{AllocError, Global};
use store::checks::MAX_CAPACITY;
use store::text_store::TextStore;

// Only a copy can want memory, and it changes nothing.
pub(crate) fn perform<S: TextStore>(
    heap: Global,
    session: &mut Session<S>,
    call: &Call,
) -> Result<Answer, AllocError>
    ensures reply { IfOk result (λ a. reply_of a ≡ reply (view session.old) (said_by call.now)) }
    ensures world { view session.new ≡ step (view session.old) (said_by call.now) }
{
    match call {
        Call::Insert { place, bytes } => Ok(Answer::from(session.insert(*place, bytes))),
        Call::Delete { place, count } => Ok(Answer::from(session.delete(*place, *count))),
        Call::Set { marker, place } => Ok(Answer::from(session.set(*marker, *place))),
        Call::Boundary => Ok(Answer::from(session.boundary())),
        Call::Trim { groups } => Ok(Answer::from(session.trim(*groups))),
        Call::Protect { start, end } => Ok(Answer::from(session.protect(*start, *end))),
        Call::Unprotect { start, end } => Ok(Answer::from(session.unprotect(*start, *end))),
        Call::Narrow { start, end } => Ok(Answer::from(session.narrow(*start, *end))),
        Call::Widen => Ok(Answer::from(session.widen())),
        Call::Length => Ok(Answer::Number(session.len())),
        Call::Capacity => Ok(Answer::Number(session.capacity())),
        Call::ByteAt { place } => Ok(Answer::Byte(session.byte_at(*place))),
        Call::Copy { place, count } => copy_out(heap, session, *place, *count),
        Call::Marker { marker } => Ok(Answer::from(session.marker(*marker))),
        Call::Window => Ok(window_of(session)),
        Call::Spans => Ok(Answer::Number(session.spans())),
        Call::Entries => Ok(Answer::Number(session.entries())),
        Call::Groups => Ok(Answer::Number(session.groups())),
    }
}

fn window_of<S: TextStore>(session: &Session<S>) -> Answer
    ensures { reply_of result ≡ window (view session.now).places.before (view session.now).places.behind }
{
    let (before, behind) = session.window();
    Answer::Window { before, behind }
}

// Copies n bytes from p on. No accepted copy has more than 32,768 bytes, so an area of that many is
// never too short. Not one with a store's copy: the answers are of two types.
fn copy_out<S: TextStore>(
    heap: Global,
    session: &Session<S>,
    p: usize,
    n: usize,
) -> Result<Answer, AllocError>
    ensures { IfOk result (λ a. reply_of a ≡ copy_reply (view session.now).text p n) }
{
    let mut area = vec![in heap; 0; n.min(MAX_CAPACITY)]?;
    let res = session.copy(p, n, &mut area);
    Ok(res.map_or_else(
        |fault| Answer::Refused(fault.lift()),
        |()| Answer::Bytes(area),
    ))
}
