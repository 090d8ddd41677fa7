//! The tests of the pages that a site keeps in memory, by their public calls alone. They stand above that room, so that it isn't proved
//! twice for its tests. Nothing calls this room, and no crate stands on it.
#![tactic(auto)]

#[cfg(test)]
mod cached;
#[cfg(test)]
mod page_cache_tests;
