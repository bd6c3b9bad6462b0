// Lists of calls as text: one call to a line, read into calls, and calls and answers shown again.
#![tactic(auto)]

mod again;
mod expected;
mod names;
mod parts;
mod reading;
mod showing;

pub use again::plain_forms_read_back;
pub use expected::{Argument, Expected, Unread};
pub use line_parts::read_number;
pub use reading::{CallList, read_list};
pub use showing::{line_text, text_line};
