ghost use Rattle.std.specs.Prelude.{◌≡◌, List, Some, IfOk, OnOk};
ghost use Rattle.locus_ids.specs.declared.ids.FileId.{FileId};
ghost use Rattle.locus_ids.specs.declared.ids.Stamp.{Stamp};
ghost use Rattle.role_steps.specs.of_dir_format.Contents.{entries_of};
ghost use Rattle.role_steps.specs.of_dir_format.Lookups.{shown_names};
ghost use Rattle.role_steps.specs.Tables.{first_that, row};
ghost use Rattle.role_steps.specs.Requests.{waiting_key};
ghost use Rattle.role_steps.specs.Views.{Frame};
ghost use Rattle.role_steps.specs.Using.{asked_answer, asks_open_of, close_answer, kept_for, looks_again, on_as_held, on_close_done, on_look_done, on_op_done, on_open_done, op_answer, opened_answer, own_serial, takes_look, takes_open, version_read};
ghost use Rattle.role_steps.specs.declared.users.WaitingCall.{WaitingCall};
ghost use Rattle.keyed_tables.specs.Rising.{Rising};
ghost use Rattle.wire_messages.specs.declared.body.LookAnswer.TheVariants as looked;
ghost use Rattle.using_site.specs.Steps.{Gives, mended_by};
ghost use Rattle.waiting_calls.specs.Rows.{asks_whole};

use crate::users::UsingSite;
use call_rules::Answer;
use dir_operations::{dir_in, shown_names};
use locus_ids::{Bytes, Names, NoMemory, Serial, Stamp, Stamps};
use role_steps::{Asking, UserInstance, VersionRead};
use site_frame::SiteFrame;
use std::alloc::Global;
use trace_book::{Call, OneVersion, Outcome};
use waiting_calls::{
    Waiting, close_asker, held_asker, is_whole, look_asker, op_asker, open_asker, send_request,
};
use wire_messages::{CloseAnswer, Granted, LookAnswer, Opening, Outbox};

/// What the grant of an open tells its call.
#[derive(Clone, Copy)]
struct Told {
    serial: u32,
    ino: u16,
    stamp: Stamp,
}

/// An open to read tells its version.
fn asked_answer(inst: Serial, told: Told, asking: &Asking) -> Answer
    ensures { (f : Frame) → own_serial f told.serial ≡ inst → result ≡ asked_answer f told.serial told.ino told.stamp asking.now }
{
    match asking {
        Asking::Open {
            serial: _,
            file,
            how: Opening::Read,
        } => {
            let version = OneVersion {
                file: *file,
                stamp: told.stamp,
            };
            Answer::Reading { inst, version }
        }
        _ => Answer::Opened {
            inst,
            ino: told.ino,
        },
    }
}

/// The version of an open to read.
fn version_read(size: u32, stamp: Stamp, asking: &Asking) -> Option<VersionRead>
    ensures { result ≡ version_read size stamp asking.now }
{
    match asking {
        Asking::Open {
            serial: _,
            file,
            how: Opening::Read,
        } => Some(VersionRead {
            file: *file,
            stamp,
            size,
        }),
        _ => None,
    }
}

impl UsingSite {
    /// An open is answered. `kept` are the stamps of the kept versions of the directory that the call mends which asks
    /// this open (`mend_opening`), and none of any other call's. An answer to what no call asks now is ignored.
    pub fn on_open_done(
        &mut self,
        frame: &SiteFrame,
        kept: Stamps,
        serial: u32,
        answer: Granted,
        out: &mut Outbox,
    ) -> Result<(), NoMemory>
        ensures { (all : FileId → List Stamp) → kept_for all (mended_by (first_that (asks_open_of serial) self.old.waiting)) ≡ kept → OnOk result (Gives (on_open_done frame.now all serial answer self.old) self.new out.old out.new) }
    {
        let Some(key) = open_asker(serial, self.waiting.as_slice()) else {
            return Ok(());
        };
        match answer {
            Granted::Open {
                ss,
                ino,
                size,
                stamp,
                vector,
            } => {
                let told = Told { serial, ino, stamp };
                let reads = self.version_read(key, size, stamp);
                self.instances.put(UserInstance {
                    serial,
                    ss,
                    vector,
                    ops: 0,
                    reads,
                })?;
                let answer = self.opened_answer(frame, key, told, kept);
                self.take(frame, key, answer, None, out)
            }
            Granted::No { why } => self.take(frame, key, Answer::Refused { why }, None, out),
        }
    }

    /// The version that the call of this key opens to read.
    fn version_read(&self, key: u64, size: u32, stamp: Stamp) -> Option<VersionRead>
        ensures { (w : WaitingCall) → row waiting_key key self.now.waiting ≡ Some w → result ≡ version_read size stamp w.asking }
    {
        match self.waiting.find(key) {
            Some(waiting) => version_read(size, stamp, &waiting.asking),
            None => None,
        }
    }

    /// What an open is to the call of this key: a mend's brings the stamps of the kept versions.
    fn opened_answer(&self, frame: &SiteFrame, key: u64, told: Told, kept: Stamps) -> Answer
        ensures { (w : WaitingCall) → row waiting_key key self.now.waiting ≡ Some w → result ≡ opened_answer frame.now told.serial told.ino told.stamp kept w.words w.asking }
    {
        let inst = Serial {
            us: frame.me.get(),
            serial: told.serial,
        };
        match self.waiting.find(key) {
            Some(waiting) => match waiting.caller.script.words() {
                Call::Mend { file: _ } => Answer::Merging { inst, kept },
                _ => asked_answer(inst, told, &waiting.asking),
            },
            None => Answer::Opened {
                inst,
                ino: told.ino,
            },
        }
    }

    /// An operation is answered. An answer to what no call asks now, or of another sort, is ignored.
    pub fn on_op_done(
        &mut self,
        frame: &SiteFrame,
        serial: u32,
        number: u32,
        outcome: Outcome,
        out: &mut Outbox,
    ) -> Result<(), NoMemory>
        ensures { OnOk result (Gives (on_op_done frame.now serial number outcome self.old) self.new out.old out.new) }
    {
        let Some(key) = op_asker(serial, number, &outcome, self.waiting.as_slice()) else {
            return Ok(());
        };
        self.keep_brought(key, &outcome)?;
        self.take(frame, key, op_answer(outcome), None, out)
    }

    /// A read is answered whose bytes are at the site: they are the answer. An answer to what no call asks now so is ignored.
    pub fn on_as_held(
        &mut self,
        frame: &SiteFrame,
        serial: u32,
        number: u32,
        out: &mut Outbox,
    ) -> Result<(), NoMemory>
        ensures { OnOk result (Gives (on_as_held frame.now serial number self.old) self.new out.old out.new) }
    {
        let Some(key) = held_asker(serial, number, self.waiting.as_slice()) else {
            return Ok(());
        };
        match self.copied_by(key)? {
            None => Ok(()),
            Some(bytes) => {
                let result = Outcome::Data { bytes };
                self.take(frame, key, Answer::Did { result }, None, out)
            }
        }
    }

    /// A close is answered: the instance is gone. An answer to what no call asks now is ignored.
    pub fn on_close_done(
        &mut self,
        frame: &SiteFrame,
        serial: u32,
        answer: CloseAnswer,
        out: &mut Outbox,
    ) -> Result<(), NoMemory>
        ensures { OnOk result (Gives (on_close_done frame.now serial answer self.old) self.new out.old out.new) }
    {
        let Some(key) = close_asker(serial, self.waiting.as_slice()) else {
            return Ok(());
        };
        self.instances.remove(u64::from(serial));
        self.take(frame, key, close_answer(answer), None, out)
    }

    /// A look is answered. An answer to what no call asks now, or of another sort, is ignored; where the version was there
    /// no more, the same request is asked with the next take.
    pub fn on_look_done(
        &mut self,
        frame: &SiteFrame,
        call: u32,
        request: u16,
        take: u32,
        answer: LookAnswer,
        out: &mut Outbox,
    ) -> Result<(), NoMemory>
        ensures { OnOk result (Gives (on_look_done frame.now call request take answer self.old) self.new out.old out.new) }
    {
        let Some(key) = look_asker(call, request, take, &answer, self.waiting.as_slice()) else {
            return Ok(());
        };
        match answer {
            LookAnswer::Found { ino, kind } => {
                self.take(frame, key, Answer::Entered { ino, kind }, None, out)
            }
            LookAnswer::Content { bytes } => self.take_content(frame, key, bytes, out),
            LookAnswer::Stat { kind, size, stamp } => {
                let answer = Answer::Described { kind, size, stamp };
                self.take(frame, key, answer, None, out)
            }
            LookAnswer::Moved => self.look_again(frame, key, out),
            LookAnswer::No { why } => self.take(frame, key, Answer::Refused { why }, None, out),
        }
    }

    /// A whole content stays here; of a list the shown names are the answer.
    fn take_content(
        &mut self,
        frame: &SiteFrame,
        key: u64,
        bytes: Bytes,
        out: &mut Outbox,
    ) -> Result<(), NoMemory>
        ensures { (w : WaitingCall) → Rising waiting_key self.old.waiting → row waiting_key key self.old.waiting ≡ Some w → OnOk result (Gives (takes_look frame.now w (looked.Content bytes) self.old) self.new out.old out.new) }
    {
        if self.asks_whole(key) {
            return self.take(frame, key, Answer::Brought, Some(bytes), out);
        }
        let names = shown(self.alloc, bytes.as_slice())?;
        self.take(frame, key, Answer::Showed { names }, None, out)
    }

    /// The call of this key looks at the whole content of a version.
    fn asks_whole(&self, key: u64) -> bool
        ensures { (w : WaitingCall) → row waiting_key key self.now.waiting ≡ Some w → result ≡ asks_whole w.asking }
    {
        match self.waiting.find(key) {
            Some(waiting) => is_whole(&waiting.asking),
            None => false,
        }
    }

    /// The same request is asked with the next take.
    fn look_again(&mut self, frame: &SiteFrame, key: u64, out: &mut Outbox) -> Result<(), NoMemory>
        ensures { (w : WaitingCall) → Rising waiting_key self.old.waiting → row waiting_key key self.old.waiting ≡ Some w → OnOk result (Gives (looks_again frame.now w w.asking self.old) self.new out.old out.new) }
    {
        let Some(waiting) = self.waiting.remove(key) else {
            return Ok(());
        };
        let Waiting { caller, asking } = waiting;
        match asking {
            Asking::Look { file, what, take } => {
                let Some(take) = take.checked_add(1) else {
                    return Err(NoMemory);
                };
                let asking = Asking::Look { file, what, take };
                send_request(frame, &caller, &asking, out)?;
                self.waiting.put(Waiting { caller, asking })
            }
            asking => self.waiting.put(Waiting { caller, asking }),
        }
    }
}

/// The names that a directory of this content shows.
fn shown(alloc: Global, bytes: &[u8]) -> Result<Names, NoMemory>
    ensures { IfOk result (λ names. names ≡ shown_names (entries_of bytes.now)) }
{
    if bytes.len() >= 4_294_967_296 {
        return Err(NoMemory);
    }
    let dir = dir_in(alloc, bytes)?;
    shown_names(alloc, &dir)
}

fn op_answer(outcome: Outcome) -> Answer
    ensures { result ≡ op_answer outcome }
{
    match outcome {
        Outcome::No { why } => Answer::Refused { why },
        result => Answer::Did { result },
    }
}

fn close_answer(answer: CloseAnswer) -> Answer
    ensures { result ≡ close_answer answer }
{
    match answer {
        CloseAnswer::Nothing => Answer::Ended { stamp: None },
        CloseAnswer::Made { stamp } => Answer::Ended { stamp: Some(stamp) },
        CloseAnswer::No { why } => Answer::Refused { why },
    }
}
