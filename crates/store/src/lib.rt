// A text store: a list of bytes within a capacity. This crate has what every store shares: how a
// call is refused, the checks in their order, and the trait that says what a store does and means.
#![tactic(auto)]

pub mod checks;
pub mod faults;
pub mod text_store;
