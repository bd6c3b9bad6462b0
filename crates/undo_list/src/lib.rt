// The undo list: what was done to a text, in groups, with the bytes that deletions took out. It
// works within fixed limits, in memory that is reserved at its making.
#![tactic(auto)]

pub mod entry;
mod fronts;
pub mod kind;
pub mod limits;
pub mod list;
#[cfg(test)]
mod tests;
