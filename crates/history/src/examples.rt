// The worked examples of the rules.
ghost use Rattle.history.specs.Examples.{WorkedExamples};

// Each of them holds on the definitions that the contracts of the calls cite, by computation. The
// function does nothing: its contract is the statement.
#[tactic(auto, using(crate::proofs::Computed::worked_examples))]
pub fn worked_examples()
    ensures { WorkedExamples }
{}
