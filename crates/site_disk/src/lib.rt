//! The whole disk of a site: its label, and its packs behind it. What makes a site or boots it calls this room, and has then
//! the number of the boot and the mounted packs. It knows nothing of instances, packets or other sites.
#![tactic(auto)]

mod boot_fault;
mod booting;
mod format_fault;
mod formatting;
mod laws;
mod places;

pub use boot_fault::BootFault;
pub use format_fault::FormatFault;
pub use laws::{boot_is_the_runs, cut_boot_is_the_runs, format_is_the_runs, label_says};
pub use places::SiteDisk;
