ghost use Rattle.std.specs.Prelude.{◌≡◌, ◌≤◌, ℕ, List, length, filter, None, OnOk, MatchOption};
ghost use Rattle.std.specs.List.{find};
ghost use Rattle.locus_ids.specs.declared.config.Config.{Config};
ghost use Rattle.trace_book.specs.declared.record.Record.TheVariants as rec;
ghost use Rattle.trace_book.specs.declared.reply.Reply.TheVariants as reply;
ghost use Rattle.lawful_trace.specs.CallRows.{ends_mending};
ghost use Rattle.promises.specs.After.{after, is_id, last_by};
ghost use Rattle.audit_past.specs.Seen.{last_of};
ghost use Rattle.audit_past.specs.Replying.{IsReplied, IsReplyTo, replied_all, settled};

use crate::{LastSeen, Told};
use audit_calls::CallRow;
use locus_ids::{CallId, EpochId, FileId, NoMemory, Refusal};
use trace_book::{Call, Descriptor, Reply};

/// What a reply makes of the past.
#[derive(Clone, Copy)]
enum Replied {
    /// A number of its process stands for what was granted to the call.
    Named {
        process: u8,
        fd: u16,
        names: Descriptor,
    },
    /// A steady descriptor is held again, by the instance that was granted to the call.
    Again {
        process: u8,
        fd: u16,
        opening: Descriptor,
    },
    /// A directory stays unmended in the call's epoch.
    Lost {
        home: Option<EpochId>,
        file: FileId,
    },
    /// The call waits no more, and that is all.
    Plain,
}

impl Told {
    /// The call has its reply.
    pub fn answered(
        &mut self,
        site: u8,
        process: u8,
        id: CallId,
        reply: &Reply,
    ) -> Result<(), NoMemory>
        requires once { length (filter (is_id id) self.old.calls) ≤ 1 }
        ensures { (c : Config) → OnOk result (self.new ≡ after c (rec.Answer site process id reply.now) self.old) }
    {
        self.reply_to(id, reply)?;
        self.seen = seen_after(site, process, id, reply);
        Ok(())
    }

    /// What a reply to the call of this name changes, but what it was.
    #[tactic(auto, using(crate::proofs::Settled::replied_one, crate::proofs::Settled::replied_none))]
    fn reply_to(&mut self, id: CallId, reply: &Reply) -> Result<(), NoMemory>
        requires once { length (filter (is_id id) self.old.calls) ≤ 1 }
        ensures { OnOk result (self.new ≡ replied_all id reply.now self.old) }
    {
        match self.reply_parts(id, reply) {
            Some(made) => self.settle(id, made),
            None => Ok(()),
        }
    }

    /// What a reply to the call of this name makes of the past.
    fn reply_parts(&self, id: CallId, reply: &Reply) -> Option<Replied>
        ensures { MatchOption result (find (is_id id) self.now.calls ≡ None) (IsReplyTo self.now.calls id reply.now) }
    {
        match self.calls.find(id) {
            Some(call) => Some(parts_of(reply, call)),
            None => None,
        }
    }

    /// The call of this name is replied to, and this becomes of the past.
    fn settle(&mut self, id: CallId, made: Replied) -> Result<(), NoMemory>
        requires once { length (filter (is_id id) self.old.calls) ≤ 1 }
        ensures { OnOk result (self.new ≡ settled made id self.old) }
    {
        match made {
            Replied::Named { process, fd, names } => {
                self.sites.take_descriptor(id.site, process, fd, names)?;
                self.epochs.name(names.epoch, names.inst);
                self.calls.reply(id);
                Ok(())
            }
            Replied::Again {
                process,
                fd,
                opening,
            } => {
                self.sites.hold_again(id.site, process, fd, opening);
                self.epochs.hold_again(opening.epoch, opening.inst)?;
                self.calls.reply(id);
                Ok(())
            }
            Replied::Lost { home, file } => {
                self.epochs.unmend(home, file)?;
                self.calls.reply(id);
                Ok(())
            }
            Replied::Plain => {
                self.calls.reply(id);
                Ok(())
            }
        }
    }
}

/// What a reply to the call makes of the past.
fn parts_of(reply: &Reply, call: &CallRow) -> Replied
    ensures { IsReplied result reply.now call.now }
{
    match reply {
        Reply::Opened { fd } => named_by(*fd, call),
        Reply::Data { bytes: _ } => held_again(call),
        Reply::No { why } => lost_by(why, call),
        _ => Replied::Plain,
    }
}

fn named_by(fd: u16, call: &CallRow) -> Replied
    ensures { IsReplied result (reply.Opened fd) call.now }
{
    match call.granted() {
        Some(names) => Replied::Named {
            process: call.process(),
            fd,
            names,
        },
        None => Replied::Plain,
    }
}

fn held_again(call: &CallRow) -> Replied
    ensures { (bytes : List ℕ) → IsReplied result (reply.Data bytes) call.now }
{
    let Some(opening) = call.granted() else {
        return Replied::Plain;
    };
    match call.words() {
        Call::Read { fd, at: _, len: _ } => Replied::Again {
            process: call.process(),
            fd: *fd,
            opening,
        },
        _ => Replied::Plain,
    }
}

fn lost_by(why: &Refusal, call: &CallRow) -> Replied
    ensures { IsReplied result (reply.No why.now) call.now }
{
    let is_lost = ends_mending(why);
    match call.words() {
        Call::Mend { file } => {
            if is_lost {
                Replied::Lost {
                    home: call.epoch(),
                    file: *file,
                }
            } else {
                Replied::Plain
            }
        }
        _ => Replied::Plain,
    }
}

/// A mend that is refused so isn't tried again in its epoch.
fn ends_mending(why: &Refusal) -> bool
    ensures { result ≡ ends_mending why.now }
{
    match why {
        Refusal::TooLong => true,
        Refusal::NoSpace { needed: _, free: _ } => true,
        Refusal::Spent => true,
        _ => false,
    }
}

/// What the next record may hang on after a reply.
fn seen_after(site: u8, process: u8, id: CallId, reply: &Reply) -> LastSeen
    ensures { last_of result ≡ last_by (rec.Answer site process id reply.now) }
{
    match reply {
        Reply::No {
            why: Refusal::Changed { epoch: _ },
        } => LastSeen::Leaving { site, process },
        _ => LastSeen::Another,
    }
}
