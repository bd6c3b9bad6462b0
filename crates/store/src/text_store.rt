// What every text store shows, and what it means.
ghost use Rattle.std.specs.Prelude.{◌≡◌, ℕ, ◌≤◌, List, length, OnOk};
ghost use Rattle.store.specs.Edits.{insert_check, delete_check, copy_check, answer, byte_at, after_insert, after_delete, after_copy, Inserted, Deleted, Copied};

use crate::faults::{Fault, Refusal};

// A list of bytes within a capacity. The clause `value` gives the exact answer of a call, with the
// first check that refuses it; those after it give all that the call leaves; `done` says once more,
// for callers, what an acceptance means.
pub trait TextStore {
    // the bytes that it holds
    ghost text: { Self → List ℕ };

    // its capacity: how many bytes it can hold
    ghost room: { Self → ℕ };

    fn len(&self) -> usize
        ensures { result ≡ length (text self.now) };

    fn capacity(&self) -> usize
        ensures { result ≡ room self.now };

    // The byte at p, or absence from the length on.
    fn byte_at(&self, p: usize) -> Option<u8>
        ensures { result ≡ byte_at (text self.now) p };

    // Writes n bytes from p on into the front of the area; its rest stays.
    fn copy(&self, p: usize, n: usize, area: &mut [u8]) -> Result<(), Fault<Refusal>>
        ensures value { result ≡ answer (copy_check (length (text self.now)) p n (length area.old)) p }
        ensures area { area.new ≡ after_copy (text self.now) p n area.old }
        ensures done { OnOk result (Copied (text self.now) p n area.old area.new) };

    // Puts the bytes in at p.
    fn insert(&mut self, p: usize, bytes: &[u8]) -> Result<(), Fault<Refusal>>
        ensures value { result ≡ answer (insert_check (length (text self.old)) (room self.old) p (length bytes.now)) p }
        ensures text { text self.new ≡ after_insert (text self.old) (room self.old) p bytes.now }
        ensures room { room self.new ≡ room self.old }
        ensures done { OnOk result (Inserted (text self.old) (room self.old) p bytes.now (text self.new)) };

    // Takes n bytes from p on out.
    fn delete(&mut self, p: usize, n: usize) -> Result<(), Fault<Refusal>>
        ensures value { result ≡ answer (delete_check (length (text self.old)) p n) p }
        ensures text { text self.new ≡ after_delete (text self.old) p n }
        ensures room { room self.new ≡ room self.old }
        ensures done { OnOk result (Deleted (text self.old) p n (text self.new)) };

    ghost within: { (s : Self) → length (text s) ≤ room s };

    ghost limit: { (s : Self) → room s ≤ 32768 };
}
