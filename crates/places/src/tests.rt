// The worked examples, and the edges of the rules.
use crate::edit::{Check, Edit, Origin};
use crate::faults::{Fault, Refusal, Refuses};
use crate::record::{Places, Span};
use std::test::Fail;

fn insertion(place: usize, count: usize) -> Edit {
    Edit::Insertion { place, count }
}

fn deletion(place: usize, count: usize) -> Edit {
    Edit::Deletion { place, count }
}

// Each edit of six bytes alone: the refusal of the window from 2 to 5, that of the span from 2 to 5,
// and where the span goes.
#[test]
fn edits_of_six_bytes(rt: HostRuntime) -> Result<(), Fail> {
    let guarded = Places::new(6).protect(2, 5)?;
    let narrowed = Places::new(6).narrow(2, 5)?;
    let table = [
        (insertion(1, 1), Some(Refusal::Window), None, 3, 6),
        (insertion(2, 1), None, None, 3, 6),
        (insertion(3, 1), None, Some(Refusal::Spans), 2, 5),
        (insertion(5, 1), None, None, 2, 5),
        (insertion(6, 1), Some(Refusal::Window), None, 2, 5),
        (deletion(0, 2), Some(Refusal::Window), None, 0, 3),
        (
            deletion(1, 2),
            Some(Refusal::Window),
            Some(Refusal::Spans),
            2,
            5,
        ),
        (deletion(2, 3), None, Some(Refusal::Spans), 2, 5),
        (
            deletion(4, 2),
            Some(Refusal::Window),
            Some(Refusal::Spans),
            2,
            5,
        ),
        (deletion(5, 1), Some(Refusal::Window), None, 2, 5),
    ];
    for (edit, outside, met, start, end) in table {
        assert_eq!(rt; refusal(narrowed.check_window(edit)), outside);
        assert_eq!(rt; refusal(guarded.check_spans(Origin::Call, edit)), met);
        assert_eq!(rt;
            refusal(guarded.check_all(Check::Spans(Origin::Undo), &[edit])),
            met
        );
        let spans = guarded.after(edit).spans;
        assert_eq!(rt; spans.as_slice(), [Span { start, end }].as_slice());
    }
    Ok(())
}

fn refusal(answer: Result<(), Fault>) -> Option<Refusal> {
    answer.err().map(|fault| fault.refusal)
}

// A marker at each place around a deletion of 4 at 1, the deletion, and its inversion; and all
// sixteen markers at the place of an insertion.
#[test]
fn markers_around_edits(rt: HostRuntime) -> Result<(), Fail> {
    let places = Places::new(8).set(3, 3)?.set(9, 1)?.set(0, 5)?.set(8, 6)?;
    let notes = places.note(1, 4);
    let deleted = places.after(deletion(1, 4));
    let back = deleted.put_back(1, notes);
    for (number, start, left) in [(3, 3, 1), (9, 1, 1), (0, 5, 1), (8, 6, 2), (15, 0, 0)] {
        assert_eq!(rt; places.marker(number)?, start);
        assert_eq!(rt; deleted.marker(number)?, left);
        assert_eq!(rt; back.marker(number)?, start);
    }
    let level = Places::new(4).with_markers([2; 16]);
    let typed = level.after(insertion(2, 3));
    assert_eq!(rt;
        typed.markers,
        [2, 2, 2, 2, 2, 2, 2, 2, 5, 5, 5, 5, 5, 5, 5, 5]
    );
    assert_eq!(rt; typed.after(deletion(2, 3)).markers, [2; 16]);
    Ok(())
}

// Overlapping and touching spans, and the calls that a record refuses.
#[test]
fn refused_calls(rt: HostRuntime) -> Result<(), Fail> {
    let three = Places::new(8).protect(1, 3)?.protect(2, 5)?.protect(5, 6)?;
    let left = three.unprotect(1, 5)?.spans;
    assert_eq!(rt; left.len(), 1);
    assert_eq!(rt; left.as_slice(), [Span { start: 5, end: 6 }].as_slice());
    let five = three.protect(0, 1)?.protect(0, 1)?;
    let eight = five.protect(0, 1)?.protect(0, 1)?.protect(0, 1)?;
    let table = [
        (eight.set(16, 9), Refusal::Argument.at(9)),
        (eight.set(15, 9), Refusal::Place.at(9)),
        (eight.protect(8, 8), Refusal::Place.at(8)),
        (eight.protect(7, 8), Refusal::SpanTable.at(7)),
        (eight.unprotect(6, 9), Refusal::Place.at(6)),
        (eight.unprotect(6, 8), Refusal::Presence.at(6)),
        (eight.unprotect(1, 1), Refusal::Presence.at(1)),
        (eight.narrow(5, 4), Refusal::Place.at(5)),
    ];
    for (answer, fault) in table {
        assert_eq!(rt; answer.err(), Some(fault));
    }
    let lifted: Fault = store::faults::Refusal::Area.at(2).lift();
    assert_eq!(rt; lifted, Refusal::Area.at(2));
    assert_eq!(rt; Fault::from(store::faults::Refusal::Area.at(2)), lifted);
    Ok(())
}

// An empty window, and runs of edits: in the first the last edit reaches outside, and the first
// meets a span, whose check comes later.
#[test]
fn runs_of_edits(rt: HostRuntime) -> Result<(), Fail> {
    let empty = Places::new(8).narrow(3, 3)?;
    let outside = Some(Refusal::Window);
    assert_eq!(rt; refusal(empty.check_window(insertion(3, 1))), None);
    assert_eq!(rt; refusal(empty.check_window(deletion(3, 1))), outside);
    assert_eq!(rt; refusal(empty.widen().check_window(deletion(3, 1))), None);
    let places = Places::new(8).protect(1, 3)?.narrow(0, 7)?;
    let table = [
        (
            [deletion(1, 1), insertion(6, 1), insertion(8, 1)],
            Err(Refusal::Window.at(8)),
        ),
        (
            [insertion(6, 1), insertion(0, 1), deletion(3, 1)],
            Err(Refusal::Spans.at(3)),
        ),
        (
            [insertion(6, 1), deletion(9, 1), deletion(1, 1)],
            Err(Refusal::Place.at(9)),
        ),
        ([insertion(6, 1), insertion(1, 1), insertion(1, 1)], Ok(())),
    ];
    for (run, answer) in table {
        assert_eq!(rt; places.dry_run(Origin::Undo, &run), answer);
    }
    Ok(())
}
