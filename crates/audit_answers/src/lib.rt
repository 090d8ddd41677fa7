//! What the audit of an input answers, as a definition over the lines of the input, and the text of an answer. A command is to
//! state its promise by it; the law that sound traces are answered yes does. This room reads nothing.
#![tactic(auto)]

mod answer;
mod laws;

pub use answer::Answer;
pub use laws::an_input_has_one_answer;
