// A session over a text store: the text with its markers, spans and window, and the undo list of what
// was done to it.
#![tactic(auto)]

mod checks;
pub mod next_state;
pub mod session;
pub mod state;
