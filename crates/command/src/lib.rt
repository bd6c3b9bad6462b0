// The command line of guyotchopper: what its words ask for, and doing it.
#![tactic(auto)]

mod help;
mod options;
mod over;
mod problem;
mod running;

pub use problem::Problem;
pub use running::run;
