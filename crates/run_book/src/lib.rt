//! The book of a run: the packets, what is written of the records, their counts, and the limit that
//! an event passed. The world stands on this room. It knows no site and no circuit.
#![tactic(auto)]

mod book;
mod counts;
mod fault;
mod laws;
mod measures;
mod writing;

pub use book::{MOST_TEXT, RunBook};
pub use counts::RunCounts;
pub use fault::{BookFault, Passed};
pub use laws::{book_is_the_runs, books_write};
pub use writing::Writing;
