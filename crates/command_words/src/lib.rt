//! The words of the command line: which of the program's commands they are. The program asks once, before it reads
//! anything. This room knows nothing of what a command does.
#![tactic(auto)]

mod command;
mod numbers;
mod plain_words;

pub use command::{Command, WordsFault, read_words};
