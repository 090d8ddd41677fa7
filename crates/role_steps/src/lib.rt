//! What each role of a site does at each event: the tables that a site keeps, and total functions from a view and a packet
//! to the view after it, the packets sent and what is told. Roles in code are proved equal to these functions, and the laws
//! of the run are theorems about them. This room has no running part, and knows nothing of other sites, of circuits or of
//! schedules.
#![tactic(auto)]

mod copies;
mod instances;
mod pulls;
mod rounds;
mod synchronizing;
mod users;

pub use copies::{FileCopy, Step};
pub use instances::{Instance, Stage};
pub use page_cache;
pub use pulls::Pull;
pub use rounds::{InEpoch, Promise, Promises, Round};
pub use synchronizing::{
    Earlies, Early, FileRow, FileRows, Holding, Holdings, LastLook, LastLooks, OpenRow, OpenRows,
    OpenStage, SyncTable, VersionRow, VersionRows,
};
pub use users::{Answers, Asking, Contents, DescriptorRow, UserInstance, VersionRead, WaitingCall};
pub use wire_messages;
