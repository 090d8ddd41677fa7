//! The tests of the disk rooms: what no clause says, a module for each room, by its public calls alone. They stand above these rooms,
//! so that none of them is proved twice for its tests. Nothing calls this room, and no crate stands on it.
#![tactic(auto)]

#[cfg(test)]
mod checks;
#[cfg(test)]
mod disk_model_tests;
#[cfg(test)]
mod pack_crash_tests;
#[cfg(test)]
mod pack_layout_tests;
#[cfg(test)]
mod pack_tests;
#[cfg(test)]
mod packs;
#[cfg(test)]
mod read_fault_tests;
#[cfg(test)]
mod shadow_tests;
#[cfg(test)]
mod site_label_tests;
#[cfg(test)]
mod table_tests;
