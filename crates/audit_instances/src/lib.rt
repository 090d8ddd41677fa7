//! The open instances of an epoch as an audit keeps them: what each was granted, and what has become of it. The table of an
//! epoch stands on this room. It knows nothing of versions, of the calls that use an instance or of what an operation does.
#![tactic(auto)]

mod asked;
mod instance_row;
mod instances;

pub use instance_row::InstanceRow;
pub use instances::Instances;
