// The limits of an undo list. They are tested by subtraction, so that no sum can pass the machine's
// numbers.
ghost use Rattle.std.specs.Prelude.{◌≡◌, ◌+◌, ◌≤◌, None, OnOk};
ghost use Rattle.store.specs.Edits.{answer};
ghost use Rattle.undo_list.specs.Limits.{limit_check, count_check};

use places::faults::{Fault, Refusal, Refuses};
use store::checks::{bad_count, has_room};

pub const MAX_ENTRIES: usize = 512;

pub const MAX_BYTES: usize = 16384;

pub const MAX_GROUPS: usize = 256;

// How many entries, kept bytes and groups.
#[derive(Clone, Copy)]
pub(crate) struct Counts {
    pub(crate) entries: usize,
    pub(crate) bytes: usize,
    pub(crate) groups: usize,
}

// Undo list: with so much more than is held, no limit is passed.
pub(crate) fn check_limits(held: Counts, more: Counts, place: usize) -> Result<(), Fault>
    ensures value { result ≡ answer (limit_check (held.entries + more.entries) (held.bytes + more.bytes) (held.groups + more.groups)) place }
    ensures passed { OnOk result ((limit_check (held.entries + more.entries) (held.bytes + more.bytes) (held.groups + more.groups) ≡ None) × (held.entries + more.entries ≤ 512) × (held.bytes + more.bytes ≤ 16384) × (held.groups + more.groups ≤ 256)) }
{
    let entries = has_room(held.entries, MAX_ENTRIES, more.entries);
    let bytes = has_room(held.bytes, MAX_BYTES, more.bytes);
    let groups = has_room(held.groups, MAX_GROUPS, more.groups);
    if !(entries && bytes && groups) {
        return Err(Refusal::UndoList.at(place));
    }
    Ok(())
}

// Count: an edit has 1 to 4,096 bytes.
pub fn check_count(n: usize, place: usize) -> Result<(), Fault>
    ensures value { result ≡ answer (count_check n) place }
    ensures passed { OnOk result ((count_check n ≡ None) × (1 ≤ n) × (n ≤ 4096)) }
{
    if bad_count(n) {
        return Err(Refusal::Count.at(place));
    }
    Ok(())
}
