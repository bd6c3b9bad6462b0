// The numbers and layers of the refusals, and which calls each state admits.
use places::faults::{Refusal, Refuses};
use session::next_state::next_state;
use session::state::{Kind, State};

#[test]
fn numbers_and_layers(rt: HostRuntime) {
    let table = [
        (Refusal::State, [1, 2]),
        (Refusal::Argument, [2, 2]),
        (Refusal::Count, [3, 1]),
        (Refusal::Place, [4, 1]),
        (Refusal::Area, [5, 1]),
        (Refusal::Presence, [6, 2]),
        (Refusal::SpanTable, [7, 2]),
        (Refusal::Window, [8, 2]),
        (Refusal::Spans, [9, 2]),
        (Refusal::Capacity, [10, 1]),
        (Refusal::UndoList, [11, 2]),
    ];
    for (refusal, number_and_layer) in table {
        assert_eq!(rt; [refusal.number(), refusal.layer()], number_and_layer);
    }
}

// Each call at place 9, with where it leads from a change, from a chain at 3, and from rest.
#[test]
fn states_and_calls(rt: HostRuntime) {
    let no = Err(Refusal::State.at(9));
    let [rest, change] = [Ok(State::Rest), Ok(State::Change)];
    let [at_two, at_three, at_four] = [2, 3, 4].map(|place| Ok(State::Chain { place }));
    let table = [
        (Kind::Insert, [change, rest, rest]),
        (Kind::Delete, [change, rest, rest]),
        (Kind::Set, [change, rest, rest]),
        (Kind::Question, [change, at_three, rest]),
        (Kind::Accept, [rest, no, no]),
        (Kind::Cancel, [rest, no, no]),
        (Kind::Boundary, [no, at_three, rest]),
        (Kind::Replay, [no, at_three, rest]),
        (Kind::Undo { place: 2 }, [no, at_two, at_two]),
        (Kind::Redo { place: 4 }, [no, at_four, at_four]),
        (Kind::Open, [no, change, change]),
        (Kind::RegionUndo, [no, rest, rest]),
        (Kind::Trim, [no, rest, rest]),
        (Kind::Protect, [no, rest, rest]),
        (Kind::Unprotect, [no, rest, rest]),
        (Kind::Narrow, [no, rest, rest]),
        (Kind::Widen, [no, rest, rest]),
    ];
    for (call, expected) in table {
        let in_change = next_state(State::Change, call, 9);
        let in_chain = next_state(State::Chain { place: 3 }, call, 9);
        let at_rest = next_state(State::Rest, call, 9);
        assert_eq!(rt; [in_change, in_chain, at_rest], expected);
    }
}
