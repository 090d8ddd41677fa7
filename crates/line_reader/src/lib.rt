//! Lines, one by one, from a source of bytes. The program's top call and its commands that read lines call it.
//! It reads a block at a time and hands lines out of its buffer. It knows nothing of what the lines say.
#![tactic(auto)]

mod block;
mod reader;
mod scan;

pub use reader::{LineReader, Next};
