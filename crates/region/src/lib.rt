// Undo in a region: what its walk promises.
#![tactic(auto)]

pub mod laws;
