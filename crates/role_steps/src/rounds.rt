use locus_ids::{EpochId, ItemList, Links, Members, SiteId, Sites};

/// The epoch that a site is in.
#[derive(Clone, Copy, PartialEq, Eq)]
pub struct InEpoch {
    pub id: EpochId,
    pub members: Members,
}

/// A site's promise to a poll, with the sites that it reaches.
#[derive(Clone, Copy)]
pub struct Promise {
    pub site: SiteId,
    pub reach: Sites,
}

/// Promises of one round, by site, ascending.
pub type Promises = ItemList<Promise>;

/// An undecided round of polls of the site that began it.
#[derive(Drop)]
pub struct Round {
    pub id: EpochId,
    /// The boot numbers of the polled sites that aren't passed over.
    pub polled: Links,
    pub promises: Promises,
}
