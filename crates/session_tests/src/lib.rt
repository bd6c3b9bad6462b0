#![tactic(auto)]

// What a session answers to calls and leaves after them, in tables that are run over a store of each
// make.
#[cfg(test)]
mod calls;
#[cfg(test)]
mod states;
#[cfg(test)]
mod tables;
