//! What the script of a call asks or gives, beside what a record of it says: the look or the reply that its text means, and whether an
//! open is the one that is asked. The rows of an audit ask this room. It knows nothing of what the records before tell.
#![tactic(auto)]

mod meaning;
mod opening;
mod reading;
mod words;

pub use meaning::{reply_meant, what_meant};
pub use opening::{gives, is_open_of};
pub use reading::is_read_so;
