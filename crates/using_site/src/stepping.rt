ghost use Rattle.std.specs.Prelude.{◌≡◌, List, IfOk, OnOk};
ghost use Rattle.call_rules.specs.Scripts.{in_group, where_packed};
ghost use Rattle.wire_messages.specs.declared.body.Opening.{Opening};
ghost use Rattle.role_steps.specs.Views.{Frame};
ghost use Rattle.role_steps.specs.declared.users.Asking.{Asking};
ghost use Rattle.role_steps.specs.declared.users.WaitingCall.{WaitingCall};
ghost use Rattle.role_steps.specs.Requests.{asks_close, asks_make, asks_op, asks_open, made_for, opening_of};
ghost use Rattle.role_steps.specs.Using.{asks_want, is_packed, next_want};
ghost use Rattle.waiting_calls.specs.Called.{called};
ghost use Rattle.waiting_calls.specs.Steps.{after_step};

use crate::users::UsingSite;
use call_rules::Want;
use locus_ids::{FileId, NoMemory, Refusal, Serial, Sites};
use role_steps::{Asking, UserInstance};
use site_frame::SiteFrame;
use trace_book::{Op, OpenMode, Reply};
use waiting_calls::{Caller, Step, given};
use wire_messages::Opening;

impl UsingSite {
    /// What a call asks next, or its reply.
    pub(crate) fn next_want(&self, frame: &SiteFrame, caller: &Caller) -> Result<Want, NoMemory>
        ensures { (a : Asking) → IfOk result (λ want. want ≡ next_want frame.now (called caller.now a) self.now) }
    {
        let free = self.lowest_free(caller.process);
        let want = caller.script.next(frame.config.mounts.as_slice(), free)?;
        Ok(where_packed(frame, want))
    }

    /// What becomes of a call by what it wants: each open takes a serial number, and each operation a number of its
    /// instance.
    pub(crate) fn step(
        &mut self,
        frame: &SiteFrame,
        caller: &Caller,
        want: Want,
    ) -> Result<Step, NoMemory>
        ensures step { (a : Asking) (all : List WaitingCall) → IfOk result (λ s. after_step frame.now (called caller.now a) s (record self.new { waiting = all }) ≡ asks_want frame.now (called caller.now a) want (record self.old { waiting = all })) }
        ensures waiting { self.new.waiting ≡ self.old.waiting }
    {
        match want {
            Want::Look { file, what } => Ok(Step::Asks {
                asking: Asking::Look {
                    file,
                    what,
                    take: 1,
                },
            }),
            Want::Open { file, mode } => self.open(file, opening_of(mode)),
            Want::OpenToMend { file } => self.open(file, Opening::Mend),
            Want::Make { group, kind, sites } => {
                let set = made_for(frame, group, sites);
                self.open(FileId { group, ino: 0 }, Opening::Make { set, kind })
            }
            Want::Do { inst, op } => self.operate(caller, inst, op),
            Want::Close { inst } => Ok(self.close(inst)),
            Want::Give { reply } => Ok(given(reply)),
            Want::Never => Ok(Step::Stays),
        }
    }

    /// Each open has a serial number of its own.
    fn open(&mut self, file: FileId, how: Opening) -> Result<Step, NoMemory>
        ensures step { (f : Frame) (w : WaitingCall) (all : List WaitingCall) → IfOk result (λ s. after_step f w s (record self.new { waiting = all }) ≡ asks_open f w file how (record self.old { waiting = all })) }
        ensures waiting { self.new.waiting ≡ self.old.waiting }
    {
        let Some(serial) = self.serials.checked_add(1) else {
            return Err(NoMemory);
        };
        self.serials = serial;
        Ok(Step::Asks {
            asking: Asking::Open { serial, file, how },
        })
    }

    /// Operations of an instance are numbered from 1.
    fn operate(&mut self, caller: &Caller, inst: Serial, op: Op) -> Result<Step, NoMemory>
        ensures step { (f : Frame) (a : Asking) (all : List WaitingCall) → IfOk result (λ s. after_step f (called caller.now a) s (record self.new { waiting = all }) ≡ asks_op f (called caller.now a) inst op (record self.old { waiting = all })) }
        ensures waiting { self.new.waiting ≡ self.old.waiting }
    {
        let Some(instance) = self.instance(inst.serial) else {
            return Ok(Step::Stays);
        };
        let Some(number) = instance.ops.checked_add(1) else {
            return Err(NoMemory);
        };
        let seen = self.seen_by(caller.script.answers(), &op);
        self.instances.put(UserInstance {
            serial: instance.serial,
            ss: instance.ss,
            vector: instance.vector,
            ops: number,
            reads: instance.reads,
        })?;
        Ok(Step::Asks {
            asking: Asking::Op {
                serial: instance.serial,
                ss: instance.ss,
                number,
                op,
                seen,
            },
        })
    }

    fn close(&self, inst: Serial) -> Step
        ensures { (f : Frame) (w : WaitingCall) (all : List WaitingCall) → after_step f w result (record self.now { waiting = all }) ≡ asks_close f w inst (record self.now { waiting = all }) }
    {
        match self.instance(inst.serial) {
            Some(instance) => Step::Asks {
                asking: Asking::Close {
                    serial: instance.serial,
                    ss: instance.ss,
                },
            },
            None => Step::Stays,
        }
    }
}

/// A request in a group that no member packs is sent to nobody: its call has no storage.
fn where_packed(frame: &SiteFrame, want: Want) -> Want
    ensures { result ≡ where_packed (is_packed frame.now) want }
{
    match want {
        Want::Look { file, what } => in_group(frame, file.group, Want::Look { file, what }),
        Want::Open { file, mode } => in_group(frame, file.group, Want::Open { file, mode }),
        Want::OpenToMend { file } => in_group(frame, file.group, Want::OpenToMend { file }),
        Want::Make { group, kind, sites } => {
            in_group(frame, group, Want::Make { group, kind, sites })
        }
        Want::Do { inst, op } => Want::Do { inst, op },
        Want::Close { inst } => Want::Close { inst },
        Want::Give { reply } => Want::Give { reply },
        Want::Never => Want::Never,
    }
}

fn in_group(frame: &SiteFrame, group: u8, want: Want) -> Want
    ensures { result ≡ in_group (is_packed frame.now) group want }
{
    if is_packed(frame, group) {
        want
    } else {
        Want::Give {
            reply: Reply::No {
                why: Refusal::NoStorage,
            },
        }
    }
}

/// Some member has a pack of the group.
fn is_packed(frame: &SiteFrame, group: u8) -> bool
    ensures { result ≡ is_packed frame.now group }
{
    match frame.sync_site(group) {
        Some(_) => true,
        None => false,
    }
}

fn opening_of(mode: OpenMode) -> Opening
    ensures { result ≡ opening_of mode }
{
    match mode {
        OpenMode::Read => Opening::Read,
        OpenMode::Write => Opening::Write,
        OpenMode::Resolve { site } => Opening::Resolve { site },
        OpenMode::Steady => Opening::Read,
    }
}

/// A make without a list of sites is for all packs of the group.
fn made_for(frame: &SiteFrame, group: u8, sites: Option<Sites>) -> Sites
    ensures { result ≡ made_for frame.now.config group sites }
{
    match sites {
        Some(sites) => sites,
        None => frame.pack_sites(group),
    }
}
