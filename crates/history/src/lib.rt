// Lists of calls on a session, made over any text store: what they answer and leave.
#![tactic(auto)]

pub mod examples;
pub mod outcome;
mod perform;
pub mod run;
