//! The words of a command line as they are given: one word, or three. Whoever reads words off a command line gives them so. This room
//! knows no library that reads words, and no command.
#![tactic(auto)]

use thiserror::Error;

/// The words of a command line, which has one or three.
#[derive(Clone, Copy)]
pub enum Given<'a> {
    One(&'a str),
    Three(&'a str, &'a str, &'a str),
}

/// Why words aren't given.
#[derive(Clone, Copy, Debug, Error)]
pub enum GivenFault {
    /// They are neither one nor three.
    #[error("not one word, nor three")]
    Count,
    #[error("no memory")]
    NoMemory,
}
