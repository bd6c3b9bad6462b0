// The lines of output.
ghost use Rattle.std.specs.Prelude.{◌≡◌, IfOk, string_bytes};
ghost use Rattle.call_list.specs.Forms.{line_form, text_form};

use corrections::calls::{Answer, Call};
use line_parts::Quoted;
use std::alloc::{AllocError, Global};

// Of a call: the number of its line in the list, the call, an arrow and the answer.
pub fn line_text(
    heap: Global,
    number: usize,
    call: &Call,
    answer: &Answer,
) -> Result<String, AllocError>
    ensures { IfOk result (λ s. string_bytes s ≡ line_form number call.now answer.now) }
{
    format!(in heap; "{number} {call} -> {answer}")
}

// Of the text, as the state after the last call shows it.
pub fn text_line(heap: Global, text: &[u8]) -> Result<String, AllocError>
    ensures { IfOk result (λ s. string_bytes s ≡ text_form text.now) }
{
    format!(in heap; "text {}", Quoted(text))
}
