//! Pages of versions that a site has read, in memory: at most so many, and the one that was used the longest ago goes first. A version
//! never changes, so a page that is kept is right for ever. Who reads asks for a part of a version, and hands in the bytes that came for
//! one. The crate knows nothing of packets, of instances or of who reads.
#![tactic(auto)]

mod page_cache;
mod page_name;
mod part;
mod parts;

pub use page_cache::{CACHED_PAGES, PageCache};
pub use page_name::PageName;
pub use part::Part;
