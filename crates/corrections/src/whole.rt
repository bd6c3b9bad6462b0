// A whole text, into a store and out of it.
ghost use Rattle.std.specs.Prelude.{◌≡◌, ◌+◌, ◌≤◌, ◌++◌, length, take, IfOk};
ghost use Rattle.corrections.specs.Whole.{append_check};
ghost use Rattle.store.specs.Edits.{answer, unless};

use std::alloc::{AllocError, Global};
use store::checks::{MAX_COUNT, has_room};
use store::faults::{Fault, Refusal, Refuses};
use store::text_store::TextStore;

// Puts bytes of any number behind the text. Where they do not all fit, none is put in.
pub(crate) fn append<S: TextStore>(store: &mut S, bytes: &[u8]) -> Result<(), Fault<Refusal>>
    ensures value { result ≡ answer (append_check (length (S.text store.old)) (S.room store.old) (length bytes.now)) (length (S.text store.old)) }
    ensures text { S.text store.new ≡ unless (append_check (length (S.text store.old)) (S.room store.old) (length bytes.now)) (S.text store.old ++ bytes.now) (S.text store.old) }
    ensures room { S.room store.new ≡ S.room store.old }
{
    let len = store.len();
    let room = store.capacity();
    if !has_room(len, room, bytes.len()) {
        return Err(Refusal::Capacity.at(len));
    }
    append_in_parts(store, bytes);
    Ok(())
}

// An insertion has at most 4,096 bytes.
fn append_in_parts<S: TextStore>(store: &mut S, bytes: &[u8])
    requires { length (S.text store.old) + length bytes.now ≤ S.room store.old }
    ensures text { S.text store.new ≡ S.text store.old ++ bytes.now }
    ensures room { S.room store.new ≡ S.room store.old }
{
    for part in bytes.chunks(MAX_COUNT) {
        let end = store.len();
        let _ = store.insert(end, part);
    }
}

// The whole text. Only memory can be wanting.
pub(crate) fn contents<S: TextStore>(heap: Global, store: &S) -> Result<Vec<u8>, AllocError>
    ensures { IfOk result (λ v. v.items ≡ S.text store.now) }
{
    let len = store.len();
    let mut area = vec![in heap; 0; len]?;
    let _ = store.copy(0, len, &mut area);
    Ok(area)
}
