use locus_ids::FileId;
use std::marker::Model;
use trace_book::What;

/// What a Look asks.
pub struct LookRequest {
    pub call: u32,
    pub process: u8,
    pub request: u16,
    pub take: u32,
    pub file: FileId,
    pub what: What,
}

// Taken apart in one place: where a request is dropped, the prover sees one call.
impl Drop for LookRequest {
    fn drop(self) {
        let LookRequest {
            call: _,
            process: _,
            request: _,
            take: _,
            file: _,
            what: _,
        } = self;
    }
}

impl Model for LookRequest {
    ghost use Rattle.role_steps.specs.Looks.{LookRequest as Asked};

    ghost Value = { Asked };

    ghost view = { λ l. record { call = l.call; process = l.process; request = l.request; take = l.take; file = l.file; what = l.what } };
}
