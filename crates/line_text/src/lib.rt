//! The parser of schedule lines: which line, call or header line some bytes are, where the header says so much. The runner of
//! a schedule calls it once for each line. It knows nothing of files, streams or sites that run, and it keeps nothing.
#![tactic(auto)]

mod call_word;
mod calls;
mod event_word;
mod events;
mod fault;
mod header_word;
mod headers;
mod hex_words;
mod laws;
mod numbers;
mod schedule_reader;
mod site_lists;
mod tree_lines;
mod words;

pub use calls::{call_of, parse_call};
pub use events::parse_line;
pub use fault::LineFault;
pub use headers::{HeaderStep, parse_header};
pub use hex_words::hex_bytes;
pub use laws::lines_have_one_reading;
pub use numbers::{number, small_number};
pub use schedule_reader::{LineRead, ScheduleReader};
pub use tree_lines::parse_tree_line;
pub use words::{is_passed, is_text, split_at, two_words};
