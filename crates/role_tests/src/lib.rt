//! The tests of the rooms of the roles: what no clause says, a module for each room, by its public calls alone. They stand above
//! these rooms, so that none of them is proved twice for its tests. Nothing calls this room, and no crate stands on it.
#![tactic(auto)]

#[cfg(test)]
mod calling;
#[cfg(test)]
mod checks;
#[cfg(test)]
mod epoch_tests;
#[cfg(test)]
mod forming;
#[cfg(test)]
mod merge_tests;
#[cfg(test)]
mod pull_tests;
#[cfg(test)]
mod pulling;
#[cfg(test)]
mod script;
#[cfg(test)]
mod script_tests;
#[cfg(test)]
mod using;
#[cfg(test)]
mod using_tests;
#[cfg(test)]
mod walk_tests;
#[cfg(test)]
mod walking;
#[cfg(test)]
mod words;
