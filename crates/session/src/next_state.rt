// Which calls a state admits, and where they lead.
ghost use Rattle.std.specs.Prelude.{◌≡◌, ◌+◌, ◌≤◌, IfOk, None};
ghost use Rattle.session.specs.States.{next_of, next_in, state_check, state_answer, below, led_below};

use crate::state::{Kind, State};
use places::faults::{Fault, Refusal, Refuses};

// State: an open change admits insert, delete, set, accept, cancel and the questions alone; accept and
// cancel want one. Every accepted call but undo, redo, boundary, replay and the questions ends a
// chain.
pub fn next_state(state: State, call: Kind, p: usize) -> Result<State, Fault>
    ensures value { result ≡ state_answer (next_of state call) p }
    ensures passed { IfOk result (λ next. (state_check state call ≡ None) × (next_in state call ≡ next)) }
    ensures low { IfOk result (λ next. below next ≤ below state + led_below call) }
{
    match (state, call) {
        (State::Change, Kind::Insert | Kind::Delete | Kind::Set | Kind::Question) => Ok(
            State::Change,
        ),
        (State::Change, Kind::Accept | Kind::Cancel) => Ok(State::Rest),
        (State::Change, _) => Err(Refusal::State.at(p)),
        (_, Kind::Accept | Kind::Cancel) => Err(Refusal::State.at(p)),
        (_, Kind::Open) => Ok(State::Change),
        (_, Kind::Undo { place } | Kind::Redo { place }) => Ok(State::Chain { place }),
        (_, Kind::Boundary | Kind::Replay | Kind::Question) => Ok(state),
        (_, _) => Ok(State::Rest),
    }
}
