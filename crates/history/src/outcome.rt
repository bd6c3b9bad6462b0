// What became of a list of calls.
use calls::answer::Answer;
use session::session::Session;
use store::text_store::TextStore;

// Every call was done and answered.
pub struct Finished<S: TextStore> {
    pub session: Session<S>,
    pub answers: Vec<Answer>,
}

// Memory was wanting.
pub enum Unfinished<S: TextStore> {
    // between two calls, for the answer of a copy or for all answers
    Interrupted { session: Session<S> },
    // for the session itself
    Unmade { store: S },
}
