// The law of the format.
ghost use Rattle.call_list.specs.Again.{PlainFormsReadBack};

// The plain form of a call, which is how a call is printed, is a line of a list; read as such, it is
// that call again. So what a run prints of its calls can be filed and run again. The function does
// nothing: its contract is the law.
#[tactic(auto, using(crate::proofs::RoundTrip::reads_back))]
pub fn plain_forms_read_back()
    ensures { PlainFormsReadBack }
{}
