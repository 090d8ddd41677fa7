//! What the tests of the rooms of the roles are made of, and what an outbox has, as text. It stands below these tests, so that it is
//! proved once for all of them. Nothing else calls this room.
#![tactic(auto)]

mod made;
mod texts;
mod versions;

pub use made::{
    FILE, ROOT, boots, bytes, config, epoch, frame, inst, links, mounts, site, stamp, vector,
};
pub use texts::{push_file, push_op, push_reply, shown};
