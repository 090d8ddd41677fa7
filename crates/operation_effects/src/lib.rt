//! The operations on an open file, carried out in place: what each gives on the working content and in the room that
//! there is, and what becomes of the open instance. Storage sites stand on this room. It knows nothing of packs, of
//! packets or of who asks; a mend is handed the contents and the versions that it works on.
#![tactic(auto)]

mod content;
mod directories;
mod fault;
mod judging;
mod mending;
mod mends;
mod operating;
mod settled;
mod settling;
mod work;

pub use content::WorkingContent;
pub use fault::EffectFault;
pub use mending::MendingWork;
pub use operating::{operate, read};
pub use settled::Settled;
pub use work::OpenWork;
