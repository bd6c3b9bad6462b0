// The checks of each call of a store, in the order of their numbers: the first to fail answers, at
// the call's place. They test by subtraction, so that no sum can pass the machine's numbers.
ghost use Rattle.std.specs.Prelude.{◌≡◌, ◌+◌, ◌≤◌, ◌||◌, None, OnOk, ◌==◌, nat_le, nat_lt};
ghost use Rattle.store.specs.Edits.{insert_check, delete_check, copy_check, answer};

use crate::faults::{Fault, Refusal, Refuses};

// The most bytes that one edit puts in or takes out.
pub const MAX_COUNT: usize = 4096;

// The largest capacity of a store.
pub const MAX_CAPACITY: usize = 32768;

// Whether an edit has no byte, or too many.
pub fn bad_count(n: usize) -> bool
    ensures { result ≡ (n == 0 || nat_lt 4096 n) }
{
    n == 0 || n > MAX_COUNT
}

// Whether n bytes from p on reach past the length.
pub fn past_end(len: usize, p: usize, n: usize) -> bool
    ensures { result ≡ nat_lt len (p + n) }
{
    p > len || len - p < n
}

// Whether a text of a length has room for n bytes more.
pub fn has_room(len: usize, room: usize, n: usize) -> bool
    ensures { result ≡ nat_le (len + n) room }
{
    len <= room && n <= room - len
}

// An insertion of n bytes at p: count, place, capacity.
pub fn check_insert(len: usize, room: usize, p: usize, n: usize) -> Result<(), Fault<Refusal>>
    ensures value { result ≡ answer (insert_check len room p n) p }
    ensures passed { OnOk result ((insert_check len room p n ≡ None) × (1 ≤ n) × (n ≤ 4096) × (p ≤ len) × (len + n ≤ room)) }
{
    if bad_count(n) {
        return Err(Refusal::Count.at(p));
    }
    if p > len {
        return Err(Refusal::Place.at(p));
    }
    if !has_room(len, room, n) {
        return Err(Refusal::Capacity.at(p));
    }
    Ok(())
}

// A deletion of n bytes from p on: count, place.
pub fn check_delete(len: usize, p: usize, n: usize) -> Result<(), Fault<Refusal>>
    ensures value { result ≡ answer (delete_check len p n) p }
    ensures passed { OnOk result ((delete_check len p n ≡ None) × (1 ≤ n) × (n ≤ 4096) × (p + n ≤ len)) }
{
    if bad_count(n) {
        return Err(Refusal::Count.at(p));
    }
    if past_end(len, p, n) {
        return Err(Refusal::Place.at(p));
    }
    Ok(())
}

// A copy of so many bytes from a place on into an area of a given length: place, area.
pub fn check_copy(len: usize, from: usize, count: usize, area: usize) -> Result<(), Fault<Refusal>>
    ensures value { result ≡ answer (copy_check len from count area) from }
    ensures passed { OnOk result ((copy_check len from count area ≡ None) × (from + count ≤ len) × (count ≤ area)) }
{
    if past_end(len, from, count) {
        return Err(Refusal::Place.at(from));
    }
    if area < count {
        return Err(Refusal::Area.at(from));
    }
    Ok(())
}
