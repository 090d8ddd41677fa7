//! What each event of a site and each step of a world does, walked once, and the first laws of every run: epochs, packets
//! and what views, disks and records carry. Theorems about the run alone; this room has no running part.
//!
//! Parts:
//! - `Walks`: All that a site does inside an epoch, walked once for every law that asks one thing of each kind of packet,
//!   of each thing told and of each write. A crate of laws states its law by kinds and takes from here that each event
//!   inside an epoch keeps it. How sites agree on an epoch is outside of it.
//! - The rest: Laws of every run about epochs: what a site promises, joins and leaves goes on lawfully, and each packet
//!   names the epoch that it speaks of. Its lemmas on what roles tell inside an epoch serve later laws too.
//! - `Epochs`: Laws of every run about how sites agree on an epoch: which ids are known, how a round of polls waits, and
//!   what a poll says. Its lemmas that all work inside an epoch forms none serve later laws too.
//! - `FactWalks`: All that a site does, walked once for every law that says what packets, views and disks carry of what
//!   was told. A crate of laws states its facts and what each handler keeps of them, and takes from here that each event
//!   of a site, each line of the schedule and each run keeps them.
#![tactic(auto)]

mod epoch_laws;
mod laws;

pub use epoch_laws::{ids_are_known, polls_name_their_receiver, rounds_wait};
pub use laws::{epochs_go_on, joins_rise, packets_name_their_epoch, steps_name_their_epoch};
