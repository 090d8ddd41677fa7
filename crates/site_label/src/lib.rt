//! The label of a disk: it names the site and numbers its boots, so that no two runs of a site have one number. A site that
//! starts reads it, and a boot raises its number before the site says anything. It knows the first 1,024 bytes of a disk, and
//! nothing of packs.
#![tactic(auto)]

mod body;
mod half;
mod label;
mod label_fault;
mod reading;

pub use label::Label;
pub use label_fault::LabelFault;
