use locus_ids::{FileId, Stamp};
use std::marker::Model;

/// A version of a file. Contracts see the `Copy` of the definitions.
#[derive(Clone, Copy)]
pub struct CopyRow {
    pub file: FileId,
    pub stamp: Stamp,
}

impl Model for CopyRow {
    ghost use Rattle.past_laws.specs.of_promises.Past.{Copy};

    ghost Value = { Copy };

    ghost view = { λ v. record { file = v.file; stamp = v.stamp } };

    ghost inverse = { λ v. record { file = v.file; stamp = v.stamp } };
}
