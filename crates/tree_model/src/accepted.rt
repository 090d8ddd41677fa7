use dir_reconcile::trace_book::Call;
use locus_ids::{CallId, EpochId};

/// An accepted call, as the tree asks for it later.
#[derive(Drop)]
pub struct AcceptedCall {
    pub call: CallId,
    pub process: u8,
    pub words: Call,
}

/// An accepted call with the site and the process that wait for it.
#[derive(Drop)]
pub struct Waiting {
    pub site: u8,
    pub process: u8,
    pub call: CallId,
    pub words: Call,
    /// The epoch that the site was in when it accepted the call.
    pub epoch: Option<EpochId>,
}
