ghost use Rattle.std.specs.Prelude.{◌≡◌, [], ◌∷◌, ◌++◌, Some, true, OnOk};
ghost use Rattle.css_opens.specs.OpenIndex.{now_of};
ghost use Rattle.css_opens.specs.Settled.{closing_of, settled_row, answer_sent, answer_told};
ghost use Rattle.site_frame.specs.Printed.{printed};
ghost use Rattle.keyed_tables.specs.of_role_steps.Opens.{asks_storage, tells_user, grants_user, repeats_open, grant_record, refuse_record, call_id, stamp_or_none, is_open_stage, numbered_file, granted_at_once};
ghost use Rattle.wire_messages.specs.declared.body.Granted.TheVariants.{No};

use crate::OpenNow;
use keyed_tables::{Keyed, serial_key};
use locus_ids::sizes::SITES;
use locus_ids::{
    CallId, FileId, Kind, Mode, NoMemory, Refusal, Serial, SiteId, Sites, Stamp, Stamps,
};
use site_frame::SiteFrame;
use std::marker::Model;
use trace_book::Record;
use version_vector::Vector;
use wire_messages::{Body, Granted, Outbox};

/// How far an open is.
#[derive(Drop)]
pub enum Progress {
    /// Refused at once: no storage site was asked.
    Denied { why: Refusal },
    /// The storage site hasn't answered.
    Asked,
    Granted,
    /// The storage site has refused.
    Refused { why: Refusal },
    /// The instance is released.
    Ended,
}

/// What becomes of an open instance.
#[derive(Drop)]
pub enum Settling {
    /// The storage site has opened it: its inode, and its size in bytes.
    Grant { ino: u16, size: u32 },
    /// The storage site refuses it.
    Refuse { why: Refusal },
    /// It is released.
    End,
}

/// What a close of an instance is.
#[derive(Clone, Copy)]
pub enum Closing {
    /// No instance of this name was granted.
    Unknown,
    /// The instance has ended before.
    Again {
        inst: Serial,
    },
    /// The instance of this file ends now.
    Released {
        inst: Serial,
        file: FileId,
        kind: Kind,
        set: Sites,
    },
}

/// An open that a using site asked for, seen as a row of the table of opens.
pub struct OpenEntry {
    pub us: SiteId,
    pub serial: u32,
    pub call: u32,
    pub process: u8,
    pub request: u16,
    pub mode: Mode,
    pub file: FileId,
    pub progress: Progress,
    /// The storage site that was asked; where none was, any site.
    pub ss: SiteId,
    pub stamp: Option<Stamp>,
    pub vector: Vector<SITES>,
    pub parents: Stamps,
    pub set: Sites,
    pub kind: Kind,
    pub size: u32,
}

// Taken apart in one place: where an open is dropped, the prover sees one call.
impl Drop for OpenEntry {
    fn drop(self) {
        let OpenEntry {
            us: _,
            serial: _,
            call: _,
            process: _,
            request: _,
            mode: _,
            file: _,
            progress: _,
            ss: _,
            stamp: _,
            vector: _,
            parents: _,
            set: _,
            kind: _,
            size: _,
        } = self;
    }
}

impl Model for OpenEntry {
    ghost use Rattle.keyed_tables.specs.of_role_steps.declared.synchronizing.OpenRow.{OpenRow};

    ghost Value = { OpenRow };

    ghost use Rattle.css_opens.specs.Opened.{open_row_of};

    ghost view = { open_row_of };
}

impl Keyed for OpenEntry {
    ghost use Rattle.keyed_tables.specs.of_role_steps.Opens.{open_key};

    ghost key = { open_key };

    fn key(&self) -> u64 {
        serial_key(self.inst())
    }
}

impl OpenEntry {
    /// The name of the instance.
    pub fn inst(&self) -> Serial
        ensures { result ≡ self.now.inst }
    {
        Serial {
            us: self.us.get(),
            serial: self.serial,
        }
    }

    /// Asks the storage site to open the instance.
    #[tactic(auto, using(crate::proofs::Seen::open_site))]
    pub fn asks_storage(&self, frame: &SiteFrame, out: &mut Outbox) -> Result<(), NoMemory>
        requires { is_open_stage self.now.stage ≡ true }
        ensures packets { OnOk result (out.new.packets ≡ out.old.packets ++ asks_storage frame.now self.now) }
        ensures records { OnOk result (out.new.records ≡ out.old.records) }
    {
        let body = Body::OpenSs {
            inst: self.inst(),
            file: self.file,
            mode: self.mode,
            set: self.set,
            kind: self.kind,
            base: stamp_or_none(self.stamp),
            vector: self.vector,
            parents: self.parents.copy()?,
        };
        out.send(frame.packet(self.ss, body))
    }

    /// Tells the using site what the open is answered.
    pub fn tells_user(
        &self,
        frame: &SiteFrame,
        answer: Granted,
        out: &mut Outbox,
    ) -> Result<(), NoMemory>
        ensures packets { OnOk result (out.new.packets ≡ out.old.packets ++ tells_user frame.now self.now answer) }
        ensures records { OnOk result (out.new.records ≡ out.old.records) }
    {
        let body = Body::OpenDone {
            serial: self.serial,
            answer,
        };
        out.send(frame.packet(self.us, body))
    }

    /// Tells the using site that the open is granted.
    #[tactic(auto, using(crate::proofs::Seen::open_site))]
    pub fn grants_user(&self, frame: &SiteFrame, out: &mut Outbox) -> Result<(), NoMemory>
        requires { is_open_stage self.now.stage ≡ true }
        ensures packets { OnOk result (out.new.packets ≡ out.old.packets ++ grants_user frame.now self.now) }
        ensures records { OnOk result (out.new.records ≡ out.old.records) }
    {
        let answer = Granted::Open {
            ss: self.ss,
            ino: self.file.ino,
            size: self.size,
            stamp: stamp_or_none(self.stamp),
            vector: self.vector,
        };
        self.tells_user(frame, answer, out)
    }

    /// Tells the using site why the open is refused.
    pub fn refuses_user(
        &self,
        frame: &SiteFrame,
        why: &Refusal,
        out: &mut Outbox,
    ) -> Result<(), NoMemory>
        ensures packets { OnOk result (out.new.packets ≡ out.old.packets ++ tells_user frame.now self.now (No why.now)) }
        ensures records { OnOk result (out.new.records ≡ out.old.records) }
    {
        self.tells_user(frame, Granted::No { why: why.copy()? }, out)
    }

    /// The same open again: it is sent on again while the storage site hasn't answered, and answered again once it is granted
    /// or refused; nothing is sent once it has ended.
    pub fn repeat(&self, frame: &SiteFrame, out: &mut Outbox) -> Result<(), NoMemory>
        ensures packets { OnOk result (out.new.packets ≡ out.old.packets ++ repeats_open frame.now self.now self.now.stage) }
        ensures records { OnOk result (out.new.records ≡ out.old.records) }
    {
        match &self.progress {
            Progress::Denied { why } => self.refuses_user(frame, why, out),
            Progress::Asked => self.asks_storage(frame, out),
            Progress::Granted => self.grants_user(frame, out),
            Progress::Refused { why } => self.refuses_user(frame, why, out),
            Progress::Ended => Ok(()),
        }
    }

    /// The call that asked for the open.
    fn call_id(&self, frame: &SiteFrame) -> CallId
        ensures { result ≡ call_id frame.now self.now.inst.us self.now.call }
    {
        CallId {
            site: self.us.get(),
            boot: frame.members.boot_of(self.us),
            n: self.call,
        }
    }

    /// Tells that the open is granted.
    #[tactic(auto, using(crate::proofs::Seen::open_site))]
    pub fn notes_grant(&self, frame: &SiteFrame, out: &mut Outbox) -> Result<(), NoMemory>
        requires { is_open_stage self.now.stage ≡ true }
        ensures packets { OnOk result (out.new.packets ≡ out.old.packets) }
        ensures records { OnOk result (out.new.records ≡ out.old.records ++ printed (grant_record frame.now self.now ∷ [])) }
    {
        out.note(Record::Grant {
            epoch: frame.epoch,
            call: self.call_id(frame),
            request: self.request,
            inst: self.inst(),
            mode: self.mode,
            file: self.file,
            stamp: self.stamp,
            ss: self.ss.get(),
        })
    }

    /// Tells that the open is refused.
    pub fn notes_refusal(
        &self,
        frame: &SiteFrame,
        why: &Refusal,
        out: &mut Outbox,
    ) -> Result<(), NoMemory>
        ensures packets { OnOk result (out.new.packets ≡ out.old.packets) }
        ensures records { OnOk result (out.new.records ≡ out.old.records ++ printed (refuse_record frame.now self.now why.now ∷ [])) }
    {
        out.note(Record::Refuse {
            epoch: frame.epoch,
            call: self.call_id(frame),
            request: self.request,
            inst: self.inst(),
            mode: self.mode,
            file: self.file,
            why: why.copy()?,
        })
    }
}

impl OpenEntry {
    /// What a close of the instance is.
    pub fn closing(&self) -> Closing
        ensures { result ≡ closing_of (Some self.now) }
    {
        match self.progress {
            Progress::Granted => Closing::Released {
                inst: self.inst(),
                file: self.file,
                kind: self.kind,
                set: self.set,
            },
            Progress::Ended => Closing::Again { inst: self.inst() },
            _ => Closing::Unknown,
        }
    }

    /// The instance as it excludes others, where it is open.
    pub fn open_now(&self, place: usize) -> Option<OpenNow>
        ensures { result ≡ now_of place self.now }
    {
        match self.progress {
            Progress::Asked | Progress::Granted => Some(OpenNow {
                place: place as u64,
                file: self.file,
                site: self.us,
                process: self.process,
                mode: self.mode,
            }),
            _ => None,
        }
    }

    /// What becomes of the instance, where it is open.
    #[tactic(auto, using(crate::proofs::Seen::open_site))]
    pub fn settle(&mut self, settling: Settling)
        requires { is_open_stage self.old.stage ≡ true }
        ensures { self.new ≡ settled_row settling self.old }
    {
        match settling {
            Settling::Grant { ino, size } => {
                self.progress = Progress::Granted;
                self.file = numbered(self.mode, self.file, ino);
                self.size = size;
            }
            Settling::Refuse { why } => self.progress = Progress::Refused { why },
            Settling::End => self.progress = Progress::Ended,
        }
    }

    /// Tells that the open is granted where its storage site is asked; a make is told once it has its number.
    pub fn notes_at_once(&self, frame: &SiteFrame, out: &mut Outbox) -> Result<(), NoMemory>
        requires { is_open_stage self.now.stage ≡ true }
        ensures packets { OnOk result (out.new.packets ≡ out.old.packets) }
        ensures records { OnOk result (out.new.records ≡ out.old.records ++ printed (granted_at_once frame.now self.now self.now.mode)) }
    {
        match self.mode {
            Mode::Make => Ok(()),
            _ => self.notes_grant(frame, out),
        }
    }

    /// Tells the using site and the trace how the storage site has answered.
    pub fn tells_answer(&self, frame: &SiteFrame, out: &mut Outbox) -> Result<(), NoMemory>
        ensures packets { OnOk result (out.new.packets ≡ out.old.packets ++ answer_sent frame.now self.now self.now.stage) }
        ensures records { OnOk result (out.new.records ≡ out.old.records ++ printed (answer_told frame.now self.now self.now.stage)) }
    {
        match &self.progress {
            Progress::Granted => {
                self.grants_user(frame, out)?;
                match self.mode {
                    Mode::Make => self.notes_grant(frame, out),
                    _ => Ok(()),
                }
            }
            Progress::Refused { why } => {
                self.refuses_user(frame, why, out)?;
                self.notes_refusal(frame, why, out)
            }
            Progress::Denied { why } => {
                self.refuses_user(frame, why, out)?;
                self.notes_refusal(frame, why, out)
            }
            _ => Ok(()),
        }
    }
}

/// The file of an instance: that of a make has its number from the storage site.
fn numbered(mode: Mode, file: FileId, ino: u16) -> FileId
    ensures { result ≡ numbered_file mode file ino }
{
    match mode {
        Mode::Make => FileId {
            group: file.group,
            ino,
        },
        _ => file,
    }
}

/// 0.0 stands where there is no stamp to name.
fn stamp_or_none(stamp: Option<Stamp>) -> Stamp
    ensures { result ≡ stamp_or_none stamp }
{
    match stamp {
        Some(stamp) => stamp,
        None => Stamp { site: 0, n: 0 },
    }
}
