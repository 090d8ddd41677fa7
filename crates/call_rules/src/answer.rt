use trace_book::locus_ids::{Kind, Names, Refusal, Serial, Stamp, Stamps};
use trace_book::{OneVersion, Outcome};

/// What a request of a call was answered.
pub enum Answer {
    /// A look at a component: the entry that it finds.
    Entered { ino: u16, kind: Kind },
    /// A look at the names that a directory shows.
    Showed { names: Names },
    /// A look at what a file is. Size in bytes.
    Described { kind: Kind, size: u32, stamp: Stamp },
    /// A look at the whole content of a version, which stays at the site that asked.
    Brought,
    /// An open but to read or to mend, or a make: the instance, and its file's inode.
    Opened { inst: Serial, ino: u16 },
    /// An open to read: the instance, and the version that it reads.
    Reading { inst: Serial, version: OneVersion },
    /// An open to mend: the instance, and the stamps of the versions that are kept, ascending.
    Merging { inst: Serial, kept: Stamps },
    /// An operation that was carried out.
    Did { result: Outcome },
    /// A close, with the version that it made.
    Ended { stamp: Option<Stamp> },
    /// The request was refused.
    Refused { why: Refusal },
}

// Taken apart in one place: where an answer is dropped, the prover sees one call.
impl Drop for Answer {
    fn drop(self) {
        match self {
            Answer::Entered { ino: _, kind: _ }
            | Answer::Showed { names: _ }
            | Answer::Described {
                kind: _,
                size: _,
                stamp: _,
            }
            | Answer::Brought
            | Answer::Opened { inst: _, ino: _ }
            | Answer::Reading {
                inst: _,
                version: _,
            }
            | Answer::Merging { inst: _, kept: _ }
            | Answer::Did { result: _ }
            | Answer::Ended { stamp: _ }
            | Answer::Refused { why: _ } => {}
        }
    }
}
