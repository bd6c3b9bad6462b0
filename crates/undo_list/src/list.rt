// The undo list and what it keeps true.
ghost use Rattle.std.specs.Prelude.{◌≡◌, ◌≤◌, true, length, vec_len, vec_capacity};
ghost use Rattle.undo_list.specs.Spell.{total, entries_of, offsets_of, offsets_from, rising, groups_held};

use crate::entry::Stored;

mod counts;
mod laws;
mod making;
mod parts;
mod pushes;
mod ranges;
pub mod reads;
mod records;
mod trims;

// Entries oldest first, each with how many kept bytes come before it, the bytes that the deletions
// among them keep, one after the other, and for each closed group how many entries there are up to
// its end. The kept bytes are exactly those of the deletions held, and no group is empty. By the
// offsets no call recounts what came before.
// No model: the contracts of the parts name the fields, which a model would hide from them.
// One arena of bytes, and ends that are indices: all memory is there from the making, no call takes more.
#[derive(Drop)]
pub struct UndoList {
    stored: Vec<Stored>,
    kept: Vec<u8>,
    ends: Vec<usize>,
    ghost stored_reserved: { 512 ≤ vec_capacity stored },
    ghost kept_reserved: { 16384 ≤ vec_capacity kept },
    ghost ends_reserved: { 256 ≤ vec_capacity ends },
    ghost stored_few: { vec_len stored ≤ 512 },
    ghost kept_few: { vec_len kept ≤ 16384 },
    ghost ends_few: { vec_len ends ≤ 256 },
    ghost filled: { total (entries_of stored.items) ≡ length kept.items },
    ghost rises: { rising 0 ends.items (length (entries_of stored.items)) ≡ true },
    ghost placed: { offsets_of stored.items ≡ offsets_from 0 (entries_of stored.items) },
    ghost groups_few: { groups_held ends.items (length (entries_of stored.items)) ≤ 256 },
}
