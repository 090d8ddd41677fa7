//! The tests of the house: what no clause says, a module for each crate, by its public calls alone. They stand above all crates,
//! so that no crate is proved twice for its tests. Nothing calls this room, and no crate stands on it.
#![tactic(auto)]

#[cfg(test)]
mod checks;
#[cfg(test)]
mod commit_graph_tests;
#[cfg(test)]
mod conflict_flags_tests;
#[cfg(test)]
mod field_codec_tests;
#[cfg(test)]
mod line_reader_tests;
#[cfg(test)]
mod locus_ids_tests;
#[cfg(test)]
mod locus_io_tests;
#[cfg(test)]
mod record_reading_tests;
#[cfg(test)]
mod trace_book_tests;
#[cfg(test)]
mod version_vector_tests;
