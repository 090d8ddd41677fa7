use call_rules::Answer;
use dir_reconcile::version_vector::Vector;
use locus_ids::sizes::SITES;
use locus_ids::{Bytes, FileId, ItemList, SiteId, Stamp};
use wire_messages::Opening;
use wire_messages::trace_book::{Beginning, Call, Descriptor, Op, What};

/// The version that an instance reads which was opened to read.
#[derive(Clone, Copy, PartialEq, Eq)]
pub struct VersionRead {
    pub file: FileId,
    pub stamp: Stamp,
    /// Its bytes.
    pub size: u32,
}

/// An instance that a using site has opened.
#[derive(Clone, Copy)]
pub struct UserInstance {
    pub serial: u32,
    pub ss: SiteId,
    /// The vector that the open was answered.
    pub vector: Vector<SITES>,
    /// The operations asked of it.
    pub ops: u32,
    /// What it reads, where it was opened to read.
    pub reads: Option<VersionRead>,
}

/// The request that a call waits for.
#[derive(Drop)]
pub enum Asking {
    Look {
        file: FileId,
        what: What,
        take: u32,
    },
    Open {
        serial: u32,
        file: FileId,
        how: Opening,
    },
    Op {
        serial: u32,
        ss: SiteId,
        number: u32,
        op: Op,
        seen: Vector<SITES>,
    },
    Close {
        serial: u32,
        ss: SiteId,
    },
}

/// What the requests of a call were answered, the earliest answer first.
pub type Answers = ItemList<Answer>;

/// Contents of versions.
pub type Contents = ItemList<Bytes>;

/// A call that has no reply yet.
#[derive(Drop)]
pub struct WaitingCall {
    /// 0 for a mend, which its site calls itself.
    pub process: u8,
    /// The number of the call at its site.
    pub call: u32,
    pub words: Call,
    pub begins: Beginning,
    pub answers: Answers,
    /// The number of its current request.
    pub request: u16,
    pub asking: Asking,
    /// The whole contents that its looks have brought, for a mend.
    pub brought: Contents,
    /// The bytes of its read, where its site had all of them in memory as it accepted the call.
    pub copied: Option<Bytes>,
}

/// An open descriptor of a process.
#[derive(Clone, Copy)]
pub struct DescriptorRow {
    pub process: u8,
    pub fd: u16,
    pub descriptor: Descriptor,
}
