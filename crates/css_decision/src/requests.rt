use locus_ids::FileId;
use std::marker::Model;
use wire_messages::Opening;

/// What an Open asks.
#[derive(Drop)]
pub struct OpenRequest {
    pub serial: u32,
    pub call: u32,
    pub process: u8,
    pub request: u16,
    pub file: FileId,
    pub how: Opening,
}

impl Model for OpenRequest {
    ghost use Rattle.role_steps.specs.Opens.{OpenRequest as Asked};

    ghost Value = { Asked };

    ghost view = { λ o. record { serial = o.serial; call = o.call; process = o.process; request = o.request; file = o.file; how = o.how } };
}
