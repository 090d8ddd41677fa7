//! The words that every crate speaks: ids, sets of sites, lists, refusals and the sizes of the product.
//! Every crate stands on this one. It knows nothing of files, disks or packets.
#![tactic(auto)]

mod byte_list;
mod config;
mod ids;
mod ino;
mod item_list;
mod memory;
mod refusal;
mod sites;
pub mod sizes;

pub use byte_list::Bytes;
pub use config::{Config, Mount, Mounts};
pub use ids::{Brought, CallId, EpochId, FileId, Kind, Member, Mode, Serial, Stamp};
pub use ino::Ino;
pub use item_list::{ItemList, Names, Stamps};
pub use memory::NoMemory;
pub use refusal::Refusal;
pub use sites::{Links, Members, SiteId, Sites};
