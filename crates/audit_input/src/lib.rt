//! The input of an audit, line by line: what the cluster is, the line `trace`, and then the lines of a trace. The audit calls it
//! once for each line. It knows nothing of streams, of limits, or of which record may follow which.
#![tactic(auto)]

mod audit_reader;

pub use audit_reader::{AuditLine, AuditReader};
