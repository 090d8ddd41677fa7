//! The tests of a site's synchronization tables: which of them it starts, what they take and know, and which mends start by
//! themselves, by their public calls alone. They stand above these rooms, so that none of them is proved twice for its tests.
//! Nothing calls this room, and no crate stands on it.
#![tactic(auto)]

#[cfg(test)]
mod checks;
#[cfg(test)]
mod made;
#[cfg(test)]
mod site_mends_tests;
#[cfg(test)]
mod site_tables_tests;
