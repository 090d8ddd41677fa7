//! The packets of a run: each that was sent, as its bytes in one log, with its number from 1; which are under way, and which are
//! lost. The runner of a schedule stands on this room. It knows nothing of what a site does with a packet.
#![tactic(auto)]

mod fault;
mod kinds;
mod letter_row;
mod letters;
mod mail;

pub use fault::MailFault;
pub use letter_row::Letters;
pub use mail::{MOST_BYTES, MOST_PACKETS, Mail, Pending, PendingPacket};
