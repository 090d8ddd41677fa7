//! The parser of the lines of a trace: which record some bytes are. Whoever is to judge a trace that another program wrote
//! calls it once for each line. It knows nothing of the cluster, of other records or of who may print which record when.
#![tactic(auto)]

mod fault;
mod instance_records;
mod laws;
mod line;
mod operations;
mod packets;
mod records;
mod requests;
mod site_records;
mod version_records;

pub use fault::RecordFault;
pub use laws::texts_tell_records;
pub use line::parse_record;
