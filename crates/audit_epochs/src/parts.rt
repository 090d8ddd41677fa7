use audit_copies::CopyRow;
use locus_ids::{CallId, ItemList};
use std::marker::Model;

/// A make that is underway. Contracts see a `Make`.
#[derive(Clone, Copy)]
pub struct MakeRow {
    pub call: CallId,
    pub group: u8,
}

impl Model for MakeRow {
    ghost use Rattle.promises.specs.Past.{Make};

    ghost Value = { Make };

    ghost view = { λ m. record { call = m.call; group = m.group } };

    ghost inverse = { λ m. record { call = m.call; group = m.group } };
}

/// What a site had when it left an epoch. Contracts see a `Left`.
#[derive(Drop)]
pub struct LeftRow {
    pub site: u8,
    pub held: ItemList<CopyRow>,
}

impl Model for LeftRow {
    ghost use Rattle.promises.specs.Past.{Left};

    ghost Value = { Left };

    ghost view = { λ l. record { site = l.site; held = l.held } };
}
