use locus_ids::{CallId, EpochId, FileId, Mode, Refusal, Serial, Stamp};

/// One version of a file.
#[derive(Clone, Copy, PartialEq, Eq)]
pub struct OneVersion {
    pub file: FileId,
    pub stamp: Stamp,
}

/// What an open descriptor of a process stands for: an instance, by the epoch in which it was opened.
#[derive(Clone, Copy, PartialEq, Eq)]
pub struct Descriptor {
    pub mode: Mode,
    pub epoch: EpochId,
    pub inst: Serial,
    /// The version that all reads of a steady descriptor are of. The instance is then the one that held it last, and it holds it
    /// as long as its epoch lasts.
    pub steady: Option<OneVersion>,
}

/// Where an accepted call begins.
#[derive(Drop)]
pub enum Beginning {
    /// It is refused at once, for the words or the caller's own tables.
    Denied { why: Refusal },
    /// It works on an open instance.
    Uses { epoch: EpochId, inst: Serial },
    /// It walks a path. What it makes may be named by its own name.
    Walks { call: CallId },
    /// It reads by a steady descriptor that no instance holds: the file is opened again. The epoch is the one that held it last.
    Reopens { version: OneVersion, last: EpochId },
    /// It closes a steady descriptor that no instance holds, so nothing is asked.
    Frees,
}
