//! The words of a command line, read by clap as one flat command. This room knows no command of ours.
#![tactic(auto)]

mod flat_command;

pub use flat_command::given_by;
