use dir_reconcile::version_vector::Vector;
use locus_ids::sizes::SITES;
use locus_ids::{FileId, ItemList, Kind, Mode, Refusal, Serial, SiteId, Sites, Stamp, Stamps};
use wire_messages::Body;

/// A version that was brought to the epoch or published in it. Size in bytes.
#[derive(Clone, Copy)]
pub struct VersionRow {
    pub stamp: Stamp,
    pub vector: Vector<SITES>,
    pub size: u32,
}

/// By stamp, ascending.
pub type VersionRows = ItemList<VersionRow>;

/// The version that a member is known to hold.
#[derive(Clone, Copy)]
pub struct Holding {
    pub site: SiteId,
    pub stamp: Stamp,
}

/// By site, ascending.
pub type Holdings = ItemList<Holding>;

/// What is known of a file of the group.
#[derive(Drop)]
pub struct FileRow {
    pub ino: u16,
    pub kind: Kind,
    pub set: Sites,
    pub versions: VersionRows,
    /// Those of the versions whose vector is below that of no other.
    pub kept: VersionRows,
    pub holders: Holdings,
}

/// By inode, ascending.
pub type FileRows = ItemList<FileRow>;

/// How far an open is.
#[derive(Drop)]
pub enum OpenStage {
    /// The storage site hasn't answered.
    Asked,
    Granted,
    Refused { why: Refusal },
    /// The instance is released.
    Ended,
}

/// An open that a using site asked for.
#[derive(Drop)]
pub struct OpenRow {
    pub inst: Serial,
    pub call: u32,
    pub process: u8,
    pub request: u16,
    pub mode: Mode,
    pub file: FileId,
    pub stage: OpenStage,
    /// The storage site, or 0 where the open is refused at once.
    pub ss: u8,
    pub stamp: Option<Stamp>,
    pub vector: Vector<SITES>,
    pub parents: Stamps,
    pub set: Sites,
    pub kind: Kind,
    pub size: u32,
}

/// In the order in which they came.
pub type OpenRows = ItemList<OpenRow>;

/// The last look of a process, and the packet that answered it.
#[derive(Drop)]
pub struct LastLook {
    pub site: SiteId,
    pub process: u8,
    pub call: u32,
    pub request: u16,
    pub take: u32,
    pub to: SiteId,
    pub body: Body,
}

/// By site and process, ascending.
pub type LastLooks = ItemList<LastLook>;

/// A request that came before the group had started.
pub struct Early {
    pub site: SiteId,
    pub process: u8,
    pub body: Body,
}

// Taken apart in one place: where a request is dropped, the prover sees one call, and not each text that its body may hold.
impl Drop for Early {
    fn drop(self) {
        let Early {
            site: _,
            process: _,
            body: _,
        } = self;
    }
}

/// In the order in which they came.
pub type Earlies = ItemList<Early>;

/// What the synchronization site of a group keeps.
#[derive(Drop)]
pub struct SyncTable {
    pub group: u8,
    /// The members whose pack has reported.
    pub reported: Sites,
    pub started: bool,
    pub early: Earlies,
    pub files: FileRows,
    pub opens: OpenRows,
    pub looks: LastLooks,
}
