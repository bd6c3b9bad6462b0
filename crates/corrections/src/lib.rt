// Correcting a text over any store: loading it, doing a list of calls, and reading it out again.
// Everything here is generic, and proved once from what the trait says of a store.
#![tactic(auto)]

pub mod calls;
pub mod correct;
mod run;
mod whole;
