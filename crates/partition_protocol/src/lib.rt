//! A round of polls of the site that began it: whose promises it has, which polled sites it waits for, and whom it chooses
//! once no answer is missing. It needs no memory. It sends nothing, and knows nothing of epochs that stand.
#![tactic(auto)]

mod chosen;
mod passed;
mod round;

pub use chosen::fully_connected;
pub use round::PollRound;
