// The calls of a session as values, with what they answer, so that a list of them can be read, done
// and shown; and what stands at the end of a list.
#![tactic(auto)]

pub mod answer;
pub mod call;
pub mod summary;
