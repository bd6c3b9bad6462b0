// The refusals of each call in the order of the checks, and spans and a window around six bytes.
use crate::calls::{Call, run, session_over, view_of};
use gap_buffer::GapBuffer;
use piece_table::PieceTable;
use places::faults::{Refusal, Refuses};
use session::session::Session;
use std::alloc::Global;
use std::process::Abort;
use std::test::Fail;
use store::text_store::TextStore;

// "abcdef" with room for eight bytes, protected from 2 to 5 and narrowed to 4 to 6. Where a call fails
// two checks, here and below, the earlier one answers.
fn refused_edits<S: TextStore>(rt: &impl Abort, session: &mut Session<S>) {
    let rows = [
        (Call::Protect(2, 5), None),
        (Call::Narrow(4, 6), None),
        (Call::Set(8, 5), None),
        (Call::Insert(9, 0), Some(Refusal::Count.at(9))),
        (Call::Insert(5, 4097), Some(Refusal::Count.at(5))),
        (Call::Insert(7, 1), Some(Refusal::Place.at(7))),
        (Call::Insert(0, 1), Some(Refusal::Window.at(0))),
        (Call::Insert(3, 1), Some(Refusal::Window.at(3))),
        (Call::Insert(4, 3), Some(Refusal::Spans.at(4))),
        (Call::Insert(5, 3), Some(Refusal::Capacity.at(5))),
        (Call::Delete(9, 0), Some(Refusal::Count.at(9))),
        (Call::Delete(0, 4097), Some(Refusal::Count.at(0))),
        (Call::Delete(3, 4), Some(Refusal::Place.at(3))),
        (
            Call::Delete(usize::MAX, 1),
            Some(Refusal::Place.at(usize::MAX)),
        ),
        (Call::Delete(0, 1), Some(Refusal::Window.at(0))),
        (Call::Delete(3, 2), Some(Refusal::Window.at(3))),
        (Call::Delete(4, 2), Some(Refusal::Spans.at(4))),
    ];
    run(rt, session, &rows);
}

// The calls that edit nothing, with eight spans. Boundary and widen are refused by the state alone.
fn refused_marks<S: TextStore>(rt: &impl Abort, session: &mut Session<S>) -> Result<(), Fail> {
    for _ in 0..7 {
        session.protect(0, 1)?;
    }
    let rows = [
        (Call::Set(16, 7), Some(Refusal::Argument.at(7))),
        (Call::Set(15, 7), Some(Refusal::Place.at(7))),
        (Call::Marker(16), Some(Refusal::Argument.at(0))),
        (Call::Trim(0), Some(Refusal::Argument.at(0))),
        (Call::Trim(257), Some(Refusal::Argument.at(0))),
        (Call::Trim(1), Some(Refusal::Presence.at(0))),
        (Call::Protect(5, 4), Some(Refusal::Place.at(5))),
        (Call::Protect(6, 7), Some(Refusal::Place.at(6))),
        (Call::Protect(3, 3), Some(Refusal::Place.at(3))),
        (Call::Protect(3, 4), Some(Refusal::SpanTable.at(3))),
        (Call::Unprotect(5, 4), Some(Refusal::Place.at(5))),
        (Call::Unprotect(6, 7), Some(Refusal::Place.at(6))),
        (Call::Unprotect(3, 5), Some(Refusal::Presence.at(3))),
        (Call::Narrow(5, 4), Some(Refusal::Place.at(5))),
        (Call::Narrow(6, 7), Some(Refusal::Place.at(6))),
        (Call::Copy(3, 4, 0), Some(Refusal::Place.at(3))),
        (Call::Copy(3, 3, 2), Some(Refusal::Area.at(3))),
        (Call::Copy(3, 3, 3), None),
    ];
    run(rt, session, &rows);
    Ok(())
}

// The undo list gets its last two of 512 entries, and a trim frees it.
fn refused_when_full<S: TextStore>(rt: &impl Abort, session: &mut Session<S>) -> Result<(), Fail> {
    for _ in 0..255 {
        session.insert(5, b"x")?;
        session.delete(5, 1)?;
    }
    let rows = [
        (Call::Insert(5, 2), None),
        (Call::Insert(6, 1), Some(Refusal::Capacity.at(6))),
        (Call::Delete(6, 1), None),
        (Call::Insert(5, 1), Some(Refusal::UndoList.at(5))),
        (Call::Insert(5, 2), Some(Refusal::Capacity.at(5))),
        (Call::Delete(4, 1), Some(Refusal::Spans.at(4))),
        (Call::Delete(5, 1), Some(Refusal::UndoList.at(5))),
        (Call::Boundary, None),
        (Call::Trim(2), Some(Refusal::Presence.at(0))),
        (Call::Trim(1), None),
        (Call::Delete(5, 1), None),
    ];
    run(rt, session, &rows);
    Ok(())
}

// A span from 2 to 5 in six bytes. One byte at 2 moves it to 3 to 6, as the calls after it show at
// both ends; once the text is as before, one byte at 5 leaves it.
fn around_a_span<S: TextStore>(rt: &impl Abort, session: &mut Session<S>) {
    let rows = [
        (Call::Protect(2, 5), None),
        (Call::Insert(3, 1), Some(Refusal::Spans.at(3))),
        (Call::Delete(1, 2), Some(Refusal::Spans.at(1))),
        (Call::Insert(2, 1), None),
        (Call::Insert(4, 1), Some(Refusal::Spans.at(4))),
        (Call::Insert(5, 1), Some(Refusal::Spans.at(5))),
        (Call::Insert(6, 1), None),
        (Call::Delete(6, 1), None),
        (Call::Insert(3, 1), None),
        (Call::Delete(2, 2), None),
        (Call::Insert(5, 1), None),
        (Call::Insert(4, 1), Some(Refusal::Spans.at(4))),
        (Call::Insert(5, 1), None),
        (Call::Delete(5, 2), None),
    ];
    run(rt, session, &rows);
}

// Six bytes narrowed to 2 to 5, each insertion taken back; then one that carries a marker.
fn around_a_window<S: TextStore>(rt: &impl Abort, session: &mut Session<S>) {
    let rows = [
        (Call::Unprotect(2, 5), None),
        (Call::Narrow(2, 5), None),
        (Call::Insert(1, 1), Some(Refusal::Window.at(1))),
        (Call::Insert(6, 1), Some(Refusal::Window.at(6))),
        (Call::Insert(2, 1), None),
        (Call::Delete(2, 1), None),
        (Call::Insert(5, 1), None),
        (Call::Delete(5, 1), None),
        (Call::Widen, None),
        (Call::Set(0, 1), None),
        (Call::Set(8, 1), None),
        (Call::Insert(1, 1), None),
    ];
    run(rt, session, &rows);
}

fn refused<S: TextStore>(rt: &impl Abort, session: &mut Session<S>) -> Result<(), Fail> {
    refused_edits(rt, session);
    refused_marks(rt, session)?;
    refused_when_full(rt, session)
}

fn refusals<S: TextStore + Drop>(rt: &impl Abort, heap: Global, store: S) -> Result<(), Fail> {
    let mut session = session_over(heap, store)?;
    let answer = refused(rt, &mut session);
    drop(session.into_store());
    answer
}

// What a session just made over six bytes shows, and the edits around a span and a window.
fn from_six_bytes<S: TextStore>(rt: &impl Abort, session: &mut Session<S>) -> Result<(), Fail> {
    let made = (*b"abcdef..", [0; 16], (0, 0), [0, 0, 0]);
    assert_eq!(rt; view_of(session), made);
    assert_eq!(rt; [session.len(), session.capacity()], [6, 8]);
    around_a_span(rt, session);
    let guarded = (*b"abcdef..", [0; 16], (0, 0), [1, 8, 1]);
    assert_eq!(rt; view_of(session), guarded);
    around_a_window(rt, session);
    let markers = [1, 0, 0, 0, 0, 0, 0, 0, 2, 0, 0, 0, 0, 0, 0, 0];
    let edited = (*b"axbcdef.", markers, (0, 0), [0, 13, 1]);
    assert_eq!(rt; view_of(session), edited);
    Ok(())
}

// The store comes back with the session's text.
fn six_bytes<S: TextStore + Drop>(rt: &impl Abort, heap: Global, store: S) -> Result<(), Fail> {
    let mut session = session_over(heap, store)?;
    let answer = from_six_bytes(rt, &mut session);
    let store = session.into_store();
    answer?;
    let mut area = [b'.'; 8];
    assert_eq!(rt; store.len(), 7);
    store.copy(0, 7, &mut area)?;
    assert_eq!(rt; &area, b"axbcdef.");
    Ok(())
}

#[test]
fn refusals_over_a_gap_buffer(rt: HostRuntime) -> Result<(), Fail> {
    let heap = rt.alloc();
    refusals(&rt, heap, GapBuffer::new(vec![in heap; 0; 8]?))
}

#[test]
fn refusals_over_a_piece_table(rt: HostRuntime) -> Result<(), Fail> {
    let heap = rt.alloc();
    refusals(&rt, heap, PieceTable::new(heap, vec![in heap; 0; 17]?)?)
}

#[test]
fn six_bytes_in_a_gap_buffer(rt: HostRuntime) -> Result<(), Fail> {
    let heap = rt.alloc();
    six_bytes(&rt, heap, GapBuffer::new(vec![in heap; 0; 8]?))
}

#[test]
fn six_bytes_in_a_piece_table(rt: HostRuntime) -> Result<(), Fail> {
    let heap = rt.alloc();
    six_bytes(&rt, heap, PieceTable::new(heap, vec![in heap; 0; 17]?)?)
}
