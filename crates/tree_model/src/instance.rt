use file_effects::Work;
use locus_ids::{CallId, FileId, Mode, Serial};

/// What a grant fixes of an instance.
#[derive(Clone, Copy)]
pub struct Granted {
    pub inst: Serial,
    /// The call that opened it, and its process.
    pub call: CallId,
    pub process: u8,
    pub mode: Mode,
    pub file: FileId,
    /// The storage site.
    pub ss: u8,
}

/// An open instance: what its grant fixed, and what has become of it since.
#[derive(Drop)]
pub struct Instance {
    pub grant: Granted,
    pub work: Work,
}
