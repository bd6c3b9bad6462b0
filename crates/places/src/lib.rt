// What every edit of a text carries along: sixteen markers, up to eight read-only spans and the
// window, in one record whose type keeps each of them within the text's length.
#![tactic(auto)]

pub mod calls;
pub mod carry;
pub mod checks;
pub mod dry_run;
pub mod edit;
pub mod faults;
pub mod laws;
mod marker;
mod markers;
pub mod notes;
pub mod record;
mod span;
pub mod spans;
#[cfg(test)]
mod tests;
