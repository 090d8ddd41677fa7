//! What a version is that a pack may keep: what is said of it beside its content, and which of its pages may stay those of the
//! version before. Packs keep such versions, and the laws of runs show that sites are asked to keep no others. It knows nothing
//! of where on a disk anything stands.
#![tactic(auto)]

mod new_version;

pub use new_version::NewVersion;
