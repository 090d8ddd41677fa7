//! The calls of a site that wait: where a call begins by the descriptors of its process, its script and its current request, how
//! that request is sent, which waiting call an answer is for, and what a reply changes. It knows nothing of what a call asks next.
#![tactic(auto)]

mod beginning;
mod caller;
mod checking;
mod descriptors;
mod leaving;
mod replying;
mod step;
mod waiting;

pub use beginning::{begins_call, descriptor, lowest_free};
pub use caller::{Caller, own_call};
pub use checking::{
    asks_open_of, close_asker, held_asker, is_whole, look_asker, op_asker, open_asker,
};
pub use leaving::answer_changed;
pub use replying::change_by_reply;
pub use step::{Step, given};
pub use waiting::{Waiting, send_request};
