// The dropping of the oldest, in place.
ghost use Rattle.std.specs.Prelude.{◌≡◌, ℕ, ◌-◌, ◌<◌, ◌≤◌, map, length, drop, vec_len, vec_capacity, slice_index_or};
ghost use Rattle.undo_list.specs.Spell.{lowered, shifted};

use crate::entry::Stored;

// Drops the first k. Only what is kept is moved.
#[tactic(auto, using(crate::proofs::Dropped::moved_down))]
fn drop_front<T: Copy>(v: &mut Vec<T>, k: usize)
    requires { k ≤ vec_len v.old }
    ensures items { v.new.items ≡ drop k v.old.items }
    ensures len { vec_len v.new ≡ vec_len v.old - k }
    ensures capacity { vec_capacity v.new ≡ vec_capacity v.old }
{
    let len = v.len();
    v.copy_within(k..len, 0);
    v.truncate(len - k);
}

// Takes what is gone from the offset of each entry.
#[tactic(auto, using(crate::proofs::Dropped::shifted_more))]
fn lower_offsets(stored: &mut [Stored], gone: usize)
    requires { (i : ℕ) (d : Stored) → i < length stored.old → gone ≤ (slice_index_or stored.old i d).before }
    ensures { stored.new ≡ map (shifted gone) stored.old }
{
    for one in stored.iter_mut() {
        one.before -= gone;
    }
}

// Drops the oldest entries and the bytes that they keep, and takes these from the offsets of the
// others.
pub(crate) fn drop_held(stored: &mut Vec<Stored>, kept: &mut Vec<u8>, gone: usize, freed: usize)
    requires entries { gone ≤ vec_len stored.old }
    requires bytes { freed ≤ vec_len kept.old }
    requires past { (i : ℕ) (d : Stored) → i < length (drop gone stored.old.items) → freed ≤ (slice_index_or (drop gone stored.old.items) i d).before }
    ensures entries { stored.new.items ≡ map (shifted freed) (drop gone stored.old.items) }
    ensures entries_len { vec_len stored.new ≡ vec_len stored.old - gone }
    ensures entries_capacity { vec_capacity stored.new ≡ vec_capacity stored.old }
    ensures kept { kept.new.items ≡ drop freed kept.old.items }
    ensures kept_len { vec_len kept.new ≡ vec_len kept.old - freed }
    ensures kept_capacity { vec_capacity kept.new ≡ vec_capacity kept.old }
{
    drop_front(stored, gone);
    drop_front(kept, freed);
    lower_offsets(stored, freed);
}

// Takes what is gone from each number.
// Not one with `lower_offsets`: a closure that changes an element, with its contract, outweighs two lines.
#[tactic(auto, using(crate::proofs::Dropped::lowered_more))]
fn lower(numbers: &mut [usize], gone: usize)
    requires { (i d : ℕ) → i < length numbers.old → gone ≤ slice_index_or numbers.old i d }
    ensures { numbers.new ≡ map (lowered gone) numbers.old }
{
    for number in numbers.iter_mut() {
        *number -= gone;
    }
}

// Drops the k oldest ends, and takes what is gone with them from the others.
#[tactic(auto, using(std::proofs::lemmas::List::with_items_is))]
pub(crate) fn drop_ends(ends: &mut Vec<usize>, k: usize, gone: usize)
    requires few { k ≤ vec_len ends.old }
    requires past { (i d : ℕ) → i < length (drop k ends.old.items) → gone ≤ slice_index_or (drop k ends.old.items) i d }
    ensures items { ends.new.items ≡ map (lowered gone) (drop k ends.old.items) }
    ensures len { vec_len ends.new ≡ vec_len ends.old - k }
    ensures capacity { vec_capacity ends.new ≡ vec_capacity ends.old }
{
    drop_front(ends, k);
    lower(ends, gone);
}
