// From a text and a list of corrections to the answers and the corrected text.
ghost use Rattle.std.specs.Prelude.{◌≡◌, ◌++◌, IfOk, IfErr};
ghost use Rattle.corrections.specs.declared.correct.Trouble.TheVariants.{TooLong, NoMemory};
ghost use Rattle.corrections.specs.Corrects.{Corrects, Troubled};

use crate::calls::{Answer, Call};
use crate::run::perform_all;
use crate::whole::{append, contents};
use std::alloc::{AllocError, Global};
use store::faults::{Fault, Refusal};
use store::text_store::TextStore;

#[derive(Drop)]
pub struct Corrected {
    pub answers: Vec<Answer>,
    pub text: Vec<u8>,
}

// Why a text could not be corrected; a call that is refused is no such trouble, but an answer.
#[derive(Drop)]
pub enum Trouble {
    // the text to start from does not fit: no call was done
    TooLong(Fault<Refusal>),
    NoMemory,
}

impl From<Fault<Refusal>> for Trouble {
    ghost from_gives = { λ f t. t ≡ TooLong f };

    fn from(fault: Fault<Refusal>) -> Trouble {
        Trouble::TooLong(fault)
    }
}

impl From<AllocError> for Trouble {
    ghost from_gives = { λ e t. t ≡ NoMemory };

    fn from(_error: AllocError) -> Trouble {
        Trouble::NoMemory
    }
}

// Puts the bytes to start from behind what the store holds, does the calls, and reads the text out.
pub fn correct<S: TextStore>(
    heap: Global,
    store: &mut S,
    start: &[u8],
    calls: &[Call],
) -> Result<Corrected, Trouble>
    ensures corrected { IfOk result (λ v. Corrects (S.text store.old) (S.room store.old) start.now calls.now v (S.text store.new)) }
    ensures trouble { IfErr result (λ e. Troubled e (S.text store.old) (S.room store.old) start.now calls.now (S.text store.new)) }
    ensures room { S.room store.new ≡ S.room store.old }
{
    append(store, start)?;
    let answers = perform_all(heap, store, calls)?;
    let text = contents(heap, store)?;
    Ok(Corrected { answers, text })
}
