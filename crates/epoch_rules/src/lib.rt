//! The rules by which sites name and promise epochs: how ids are ordered, what a poll is answered, when an install is taken,
//! and which number comes next. Whoever forms epochs stands on this room. It keeps nothing, sends nothing and knows of no
//! packets.
#![tactic(auto)]

mod ids;
mod places;
mod promised;

pub use ids::{is_epoch_below, next_number, same_epoch};
pub use places::{boot_in, is_linked, reached, site_at};
pub use promised::{PollAnswer, Promised};
pub use role_steps;
