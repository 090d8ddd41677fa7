use file_content::locus_ids::{Bytes, ItemList, Stamp};

/// What has become of an open instance since it was granted.
#[derive(Drop)]
pub struct Work {
    /// Operations done.
    pub ops: u32,
    /// The working content.
    pub content: Bytes,
    /// A commit is owed.
    pub owes: bool,
    /// The version that it stands on.
    pub last: Option<Stamp>,
    /// The last version that it committed.
    pub committed: Option<Stamp>,
    /// The last version was committed since the last operation.
    pub fresh: bool,
    /// The pages of the working content, from 0, that were changed since the last commit or abort, each once.
    pub changed: ItemList<usize>,
}
