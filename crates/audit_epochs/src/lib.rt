//! The epochs of a trace as an audit keeps them: who has been in each, what it knows, has granted and has open. It says what
//! each record makes of them, and what the rows ask of them. It knows nothing of the sites now, of calls or of contents.
#![tactic(auto)]

mod changes;
mod epoch_row;
mod epochs;
mod grants;
mod opening;
mod parts;
mod taking;
mod uses;

pub use audit_instances;
pub use epoch_row::EpochRow;
pub use epochs::Epochs;
pub use grants::Grants;
pub use parts::{LeftRow, MakeRow};
