use locus_ids::CallId;

/// What the last record was, where the next may hang on it.
#[derive(Clone, Copy)]
pub enum LastSeen {
    /// A site left its epoch, and by this its calls may have been answered so, up to those of this process.
    Leaving { site: u8, process: u8 },
    /// This call was accepted.
    Accepting { call: CallId },
    Another,
}
