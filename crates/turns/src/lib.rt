// Edits to come, put to each check at their turn, before any text is touched: the length, the spans and
// the counts are those that the edits before leave. No store is asked and nothing is written.
#![tactic(auto)]

pub mod check;
mod counts;
pub mod room;
