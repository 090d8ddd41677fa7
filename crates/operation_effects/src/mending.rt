use dir_reconcile::KeptVectors;
use locus_ids::{Bytes, ItemList};
use std::marker::Model;

/// What a mend works on: the contents that its looks have brought, and the vectors of all kept versions of the group.
#[derive(Drop)]
pub struct MendingWork {
    pub contents: ItemList<Bytes>,
    pub kept: KeptVectors,
}

impl Model for MendingWork {
    ghost use Rattle.role_steps.specs.OperationEffects.{Mending};

    ghost Value = { Mending };

    ghost view = { λ m. record { contents = m.contents; kept = m.kept } };
}
