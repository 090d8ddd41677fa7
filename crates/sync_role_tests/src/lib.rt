//! The tests of the rooms of a synchronization site: what no clause says, a module for each room, by its public calls alone. They stand above
//! these rooms, so that none of them is proved twice for its tests. Nothing calls this room, and no crate stands on it.
#![tactic(auto)]

#[cfg(test)]
mod checks;
#[cfg(test)]
mod css_tests;
#[cfg(test)]
mod group;
#[cfg(test)]
mod knowing;
#[cfg(test)]
mod known;
#[cfg(test)]
mod script;
#[cfg(test)]
mod table_tests;
#[cfg(test)]
mod version_tests;
#[cfg(test)]
mod words;
