use wire_fields::trace_book::locus_ids::sizes::SITES;
use wire_fields::trace_book::locus_ids::{
    Bytes, EpochId, FileId, ItemList, Kind, Members, Mode, Refusal, Serial, SiteId, Sites, Stamp,
    Stamps,
};
use wire_fields::trace_book::{Op, Outcome, What};
use wire_fields::version_vector::Vector;

/// How an open that a using site asks for is to be.
#[derive(Clone, Copy)]
pub enum Opening {
    Read,
    Write,
    /// Settles a conflict, beginning from the version of this site.
    Resolve { site: u8 },
    Mend,
    /// Makes a file of this kind, which these sites store.
    Make { set: Sites, kind: Kind },
}

/// A copy that a site has of a file, as it reports it.
#[derive(Clone, Copy)]
pub struct ReportedCopy {
    pub ino: u16,
    pub kind: Kind,
    pub set: Sites,
    pub size: u32,
    pub stamp: Stamp,
    pub vector: Vector<SITES>,
}

/// The copies of a group, their inodes ascending.
pub type ReportedCopies = ItemList<ReportedCopy>;

/// What a storage site answers an open.
#[derive(Drop)]
pub enum OpenedAs {
    Open { ino: u16, size: u32 },
    No { why: Refusal },
}

/// What a synchronization site answers an open.
#[derive(Drop)]
pub enum Granted {
    Open {
        /// The storage site.
        ss: SiteId,
        ino: u16,
        size: u32,
        stamp: Stamp,
        vector: Vector<SITES>,
    },
    No {
        why: Refusal,
    },
}

/// The version that an instance made.
#[derive(Clone, Copy)]
pub struct MadeVersion {
    pub stamp: Stamp,
    pub vector: Vector<SITES>,
    pub size: u32,
}

/// What a close is answered.
#[derive(Drop)]
pub enum CloseAnswer {
    /// It made no version.
    Nothing,
    Made { stamp: Stamp },
    No { why: Refusal },
}

/// What a Look is answered.
#[derive(Drop)]
pub enum LookAnswer {
    Found { ino: u16, kind: Kind },
    Content { bytes: Bytes },
    Stat { kind: Kind, size: u32, stamp: Stamp },
    /// The version that was to be served is there no more.
    Moved,
    No { why: Refusal },
}

/// Numbers of pages, ascending.
pub type PageNumbers = ItemList<u16>;

/// What one site tells another, in the order of the numbers of its kinds from 1; a held read and its answer are of the kinds before
/// them.
#[derive(Drop)]
pub enum Body {
    /// Asks for a promise to join the epoch of the header.
    Poll,
    Promise {
        reach: Sites,
    },
    Refuse {
        promised: EpochId,
    },
    Install {
        members: Members,
    },
    Joined,
    Report {
        group: u8,
        copies: ReportedCopies,
    },
    ReportOk {
        group: u8,
    },
    Open {
        serial: u32,
        call: u32,
        process: u8,
        request: u16,
        file: FileId,
        how: Opening,
    },
    OpenSs {
        inst: Serial,
        file: FileId,
        mode: Mode,
        set: Sites,
        kind: Kind,
        base: Stamp,
        vector: Vector<SITES>,
        parents: Stamps,
    },
    Opened {
        inst: Serial,
        answer: OpenedAs,
    },
    OpenDone {
        serial: u32,
        answer: Granted,
    },
    Op {
        serial: u32,
        number: u32,
        op: Op,
        /// What a remove has seen of the entry; zero for each other operation.
        seen: Vector<SITES>,
    },
    OpDone {
        serial: u32,
        number: u32,
        outcome: Outcome,
    },
    /// Reads bytes that the asking site has in its cache: an operation that brings none.
    ReadHeld {
        serial: u32,
        number: u32,
        at: u32,
        len: u16,
    },
    /// What such a read gave: so many bytes, those that the asking site has.
    AsHeld {
        serial: u32,
        number: u32,
        len: u16,
    },
    Close {
        serial: u32,
    },
    Closed {
        inst: Serial,
        made: Option<MadeVersion>,
    },
    ClosedOk {
        inst: Serial,
    },
    CloseDone {
        serial: u32,
        answer: CloseAnswer,
    },
    Look {
        call: u32,
        process: u8,
        request: u16,
        take: u32,
        file: FileId,
        what: What,
    },
    LookSs {
        /// The using site.
        us: SiteId,
        call: u32,
        process: u8,
        request: u16,
        take: u32,
        file: FileId,
        what: What,
        /// The version to serve.
        serve: Stamp,
    },
    LookDone {
        call: u32,
        request: u16,
        take: u32,
        answer: LookAnswer,
    },
    Notify {
        file: FileId,
        kind: Kind,
        set: Sites,
        size: u32,
        stamp: Stamp,
        vector: Vector<SITES>,
        holder: SiteId,
    },
    Pull {
        file: FileId,
        stamp: Stamp,
        page: u8,
    },
    Page {
        file: FileId,
        stamp: Stamp,
        page: u8,
        bytes: Bytes,
    },
    Have {
        file: FileId,
        stamp: Stamp,
    },
    /// Asks which pages to pull of a version, over the own one.
    Want {
        file: FileId,
        wanted: Stamp,
        own: Stamp,
    },
    /// The pages of the wanted version to pull.
    Delta {
        file: FileId,
        wanted: Stamp,
        pages: PageNumbers,
    },
}
