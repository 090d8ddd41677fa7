use locus_ids::sizes::SITES;
use locus_ids::{FileId, Kind, Mode, Serial, Sites, Stamp, Stamps};
use std::marker::Model;
use version_vector::Vector;

/// What a synchronization site asks of a storage site for an open.
#[derive(Drop)]
pub struct StoreRequest {
    pub inst: Serial,
    /// The file; of one that is made the group alone counts.
    pub file: FileId,
    pub mode: Mode,
    pub set: Sites,
    pub kind: Kind,
    /// The version that it begins from.
    pub base: Stamp,
    /// The vector on which its next version stands, and that version's parents.
    pub vector: Vector<SITES>,
    pub parents: Stamps,
}

impl Model for StoreRequest {
    ghost use Rattle.role_steps.specs.Storage.{StoreRequest as Asked};

    ghost Value = { Asked };

    ghost view = { λ r. record { inst = r.inst; file = r.file; mode = r.mode; set = r.set; kind = r.kind; base = r.base; vector = r.vector; parents = r.parents } };
}
