//! The lists that a follower of a tree keeps, and what is asked of them: what sites have, which versions are known, which
//! calls were accepted, what was granted and is open, and which site has which role. Each is the list of the definitions.
//! It knows nothing of what a tree gives, and keeps no records.
#![tactic(auto)]

mod calls;
mod copies;
mod grants;
mod instances;
mod known;
mod numbers;
mod same;
mod sites;

pub use calls::{call_in, site_named, sites_made};
pub use copies::Copies;
pub use grants::{group_granted, is_granted, is_taken};
pub use instances::Instances;
pub use known::{has_stamp, note, note_copies, stamps_of};
pub use numbers::{is_given_by, with_first, without_number};
pub use same::{same_all, same_outcome, same_refusal, same_served, same_version};
pub use sites::{has_pack, has_site, is_good_set, making_site, packs_of, sync_site};
