//! A run whose boxes meet twice, on which the law of boxes is tried, and traces on which it is false or of which it doesn't speak; and what
//! a mail asks that is refused half-way. Theorems alone; nothing stands on this room.
#![tactic(auto)]

mod refused;
mod tried;

pub use refused::refused_mails_close_what_they_opened;
pub use tried::{other_traces_are_left_out, the_boxes_of_a_run_are_as_told, wrong_boxes_are_told};
