#![tactic(auto)]

// Tables of calls with their outcomes, run over a store of each make with the same answers.
#[cfg(test)]
mod edges;
