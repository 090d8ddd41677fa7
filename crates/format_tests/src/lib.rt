//! The tests of the byte formats: what no clause says of the bytes of directories and of packets, a module for each crate, by its
//! public calls alone. They stand above the formats, so that no format is proved twice for its tests. Nothing calls this room,
//! and no crate stands on it.
#![tactic(auto)]

#[cfg(test)]
mod checks;
#[cfg(test)]
mod dir_format_tests;
#[cfg(test)]
mod dir_reconcile_tests;
#[cfg(test)]
mod wire_messages_tests;
