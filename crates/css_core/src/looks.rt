ghost use Rattle.std.specs.Prelude.{◌≡◌, ◌++◌, ◌∷◌, [], IfOk, OnOk, Option, None};
ghost use Rattle.std.specs.Option.{option_map};
ghost use Rattle.role_steps.specs.declared.synchronizing.FileRow.{FileRow};
ghost use Rattle.wire_messages.specs.declared.body.Body.TheVariants.{LookDone};
ghost use Rattle.site_frame.specs.Printed.{printed};
ghost use Rattle.role_steps.specs.Views.{packet};
ghost use Rattle.role_steps.specs.Looks.{is_look_before, is_same_look, letter, last_look, look_record, result_of, Denies};
ghost use Rattle.locus_ids.specs.declared.refusal.Refusal.TheVariants.{NoStorage};
ghost use Rattle.css_core.specs.Lettered.{service_of, look_turn, letter_made};

use crate::LookRequest;
use crate::service::Service;
use keyed_tables::{Keyed, process_key};
use locus_ids::{CallId, FileId, Kind, NoMemory, Refusal, SiteId, Stamp};
use site_frame::SiteFrame;
use std::marker::Model;
use trace_book::{Record, Served, What};
use wire_messages::{Body, LookAnswer, Outbox};

/// How a look was answered.
#[derive(Drop)]
pub enum Letter {
    /// What the file is. Size in bytes.
    Stat {
        kind: Kind,
        size: u32,
        stamp: Stamp,
    },
    No {
        why: Refusal,
    },
    /// It was passed on to a holder of this version.
    Passed {
        holder: SiteId,
        file: FileId,
        what: What,
        stamp: Stamp,
    },
}

/// The last look of a process, and how it was answered.
pub struct LookRow {
    site: SiteId,
    process: u8,
    call: u32,
    request: u16,
    take: u32,
    letter: Letter,
}

// Taken apart in one place: where a row is dropped, the prover sees one call.
impl Drop for LookRow {
    fn drop(self) {
        let LookRow {
            site: _,
            process: _,
            call: _,
            request: _,
            take: _,
            letter: _,
        } = self;
    }
}

impl Model for LookRow {
    ghost use Rattle.role_steps.specs.declared.synchronizing.LastLook.{LastLook};

    ghost Value = { LastLook };

    ghost use Rattle.css_core.specs.Lettered.{look_row};

    ghost view = { look_row };
}

impl Keyed for LookRow {
    ghost use Rattle.role_steps.specs.Looks.{look_key};

    ghost key = { look_key };

    fn key(&self) -> u64 {
        process_key(self.site, self.process)
    }
}

/// How a look stands to the last one of its process.
#[derive(Clone, Copy)]
pub enum Turn {
    Lower,
    Same,
    Higher,
}

impl LookRow {
    /// How a look stands to this one: by call, request and take.
    pub fn turn(&self, look: &LookRequest) -> Turn
        ensures { result ≡ look_turn look.now self.now }
    {
        if self.is_before(look) {
            Turn::Lower
        } else if self.is_same(look) {
            Turn::Same
        } else {
            Turn::Higher
        }
    }

    fn is_before(&self, look: &LookRequest) -> bool
        ensures { result ≡ is_look_before look.now self.now }
    {
        look.call < self.call
            || (look.call == self.call
                && (look.request < self.request
                    || (look.request == self.request && look.take < self.take)))
    }

    fn is_same(&self, look: &LookRequest) -> bool
        ensures { result ≡ is_same_look look.now self.now }
    {
        look.call == self.call && (look.request == self.request && look.take == self.take)
    }

    /// Sends the answer.
    pub fn send(&self, frame: &SiteFrame, out: &mut Outbox) -> Result<(), NoMemory>
        ensures packets { OnOk result (out.new.packets ≡ out.old.packets ++ packet frame.now self.now.to self.now.body ∷ []) }
        ensures records { OnOk result (out.new.records ≡ out.old.records) }
    {
        match &self.letter {
            Letter::Stat { kind, size, stamp } => {
                let answer = LookAnswer::Stat {
                    kind: *kind,
                    size: *size,
                    stamp: *stamp,
                };
                out.send(frame.packet(self.site, self.done(answer)))
            }
            Letter::No { why } => {
                let answer = LookAnswer::No { why: why.copy()? };
                out.send(frame.packet(self.site, self.done(answer)))
            }
            Letter::Passed {
                holder,
                file,
                what,
                stamp,
            } => {
                let body = Body::LookSs {
                    us: self.site,
                    call: self.call,
                    process: self.process,
                    request: self.request,
                    take: self.take,
                    file: *file,
                    what: what.copy()?,
                    serve: *stamp,
                };
                out.send(frame.packet(*holder, body))
            }
        }
    }

    fn done(&self, answer: LookAnswer) -> Body
        ensures { result ≡ LookDone self.now.call self.now.request self.now.take answer }
    {
        Body::LookDone {
            call: self.call,
            request: self.request,
            take: self.take,
            answer,
        }
    }
}

/// The row of a look that is served so, of a file of this kind.
pub fn look_row(
    us: SiteId,
    look: &LookRequest,
    kind: Option<Kind>,
    service: &Service,
) -> Result<LookRow, NoMemory>
    ensures { (known : Option FileRow) → kind ≡ option_map (λ (r : FileRow). r.kind) known → IfOk result (λ made. made ≡ last_look us look.now (letter us look.now known (service_of service.now))) }
{
    let letter = letter_of(look, kind, service)?;
    Ok(LookRow {
        site: us,
        process: look.process,
        call: look.call,
        request: look.request,
        take: look.take,
        letter,
    })
}

/// The row of a look at a file that isn't known.
pub fn unknown_row(us: SiteId, look: &LookRequest) -> LookRow
    ensures { result ≡ last_look us look.now (letter us look.now None (Denies NoStorage)) }
{
    LookRow {
        site: us,
        process: look.process,
        call: look.call,
        request: look.request,
        take: look.take,
        letter: Letter::No {
            why: Refusal::NoStorage,
        },
    }
}

fn letter_of(look: &LookRequest, kind: Option<Kind>, service: &Service) -> Result<Letter, NoMemory>
    ensures { IfOk result (λ made. made ≡ letter_made look.now kind service.now) }
{
    match service {
        Service::Denied { why } => Ok(Letter::No { why: why.copy()? }),
        Service::Served { version, site } => match kind {
            None => Ok(Letter::No {
                why: Refusal::NoStorage,
            }),
            Some(kind) => match &look.what {
                What::Stat => Ok(Letter::Stat {
                    kind,
                    size: version.size,
                    stamp: version.stamp,
                }),
                what => Ok(Letter::Passed {
                    holder: *site,
                    file: look.file,
                    what: what.copy()?,
                    stamp: version.stamp,
                }),
            },
        },
    }
}

/// Tells of a look what it was served.
pub fn note_look(
    frame: &SiteFrame,
    us: SiteId,
    look: &LookRequest,
    service: &Service,
    out: &mut Outbox,
) -> Result<(), NoMemory>
    ensures packets { OnOk result (out.new.packets ≡ out.old.packets) }
    ensures records { OnOk result (out.new.records ≡ out.old.records ++ printed (look_record frame.now us look.now (service_of service.now) ∷ [])) }
{
    let what = look.what.copy()?;
    let result = served(service)?;
    out.note(Record::Look {
        epoch: frame.epoch,
        call: CallId {
            site: us.get(),
            boot: frame.members.boot_of(us),
            n: look.call,
        },
        request: look.request,
        file: look.file,
        what,
        result,
    })
}

/// What a look was served, as its record tells it.
fn served(service: &Service) -> Result<Served, NoMemory>
    ensures { IfOk result (λ made. made ≡ result_of (service_of service.now)) }
{
    match service {
        Service::Denied { why } => Ok(Served::No { why: why.copy()? }),
        Service::Served { version, site: _ } => Ok(Served::At {
            stamp: version.stamp,
        }),
    }
}
