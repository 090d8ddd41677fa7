// A record is judged by what is known of its kind. What is kept of it is taken out of it.
ghost use Rattle.std.specs.Prelude.{◌≡◌, IfOk};
ghost use Rattle.locus_ids.specs.declared.config.Config.{Config};
ghost use Rattle.audit_laws.specs.Tidy.Tidy.{IsTidy};
ghost use Rattle.trace_audit.specs.Kinds.{kind_of};
ghost use Rattle.trace_audit.specs.Steps.{Judges};
ghost use Rattle.trace_audit.specs.declared.kinds.RecordKind.TheVariants.{OfCall, OfCommit, OfGrant, OfLook, OfNothing, OfOperation, OfRefusal, OfRelease, OfSite};

use crate::call_steps::{accept, answer, look};
use crate::site_steps::{adopt, boot, join, leave, pass, start, stop};
use crate::tree_steps::{act, commit, grant, refuse, release};
use audit_rows::{ActTold, CallTold, EndTold, GrantTold, LookTold, OpenTold, Replied, Told};
use commit_graph::Version;
use locus_ids::{Bytes, Config, NoMemory, Refusal, Stamps};
use std::mem::replace;
use trace_book::{Call, Record};

/// A site boots or stops, leaves or joins an epoch, starts a group or adopts a version.
pub(crate) fn site_record(config: &Config, told: &mut Told, r: &Record) -> Result<bool, NoMemory>
    requires tidy { IsTidy config.now told.old }
    requires kind { kind_of r.now ≡ OfSite }
    ensures { IfOk result (Judges config.now told.old r.now told.new) }
{
    match r {
        Record::Up { site, boot: n } => boot(config, told, *site, *n),
        Record::Stopped { site, cause } => stop(config, told, *site, *cause),
        Record::Leave { site, epoch } => leave(config, told, *site, *epoch),
        Record::Join {
            site,
            epoch,
            members,
        } => join(config, told, *site, *epoch, members),
        Record::Start {
            epoch,
            group,
            copies,
        } => start(config, told, *epoch, *group, copies),
        Record::Adopt { file, site, stamp } => adopt(config, told, *file, *site, *stamp),
        _ => unreachable!(),
    }
}

/// A call is accepted or has its reply.
pub(crate) fn call_record(
    config: &Config,
    told: &mut Told,
    r: &mut Record,
) -> Result<bool, NoMemory>
    requires tidy { IsTidy config.now told.old }
    requires kind { kind_of r.old ≡ OfCall }
    ensures { IfOk result (Judges config.now told.old r.old told.new) }
{
    match r {
        Record::Accept {
            site,
            process,
            call,
            words,
        } => {
            let by = CallTold {
                site: *site,
                process: *process,
                call: *call,
            };
            let kept = replace(words, Call::Abort { fd: 0 });
            accept(config, told, by, kept)
        }
        Record::Answer {
            site,
            process,
            call,
            reply,
        } => answer(
            config,
            told,
            Replied {
                site: *site,
                process: *process,
                call: *call,
            },
            reply,
        ),
        _ => unreachable!(),
    }
}

/// A look of a call is answered.
pub(crate) fn look_record(config: &Config, told: &mut Told, r: &Record) -> Result<bool, NoMemory>
    requires tidy { IsTidy config.now told.old }
    requires kind { kind_of r.now ≡ OfLook }
    ensures { IfOk result (Judges config.now told.old r.now told.new) }
{
    match r {
        Record::Look {
            epoch,
            call,
            request,
            file,
            what,
            result: served,
        } => look(
            config,
            told,
            *epoch,
            LookTold {
                call: *call,
                request: *request,
                file: *file,
                what,
            },
            served,
        ),
        _ => unreachable!(),
    }
}

/// An instance is granted to a call.
pub(crate) fn grant_record(config: &Config, told: &mut Told, r: &Record) -> Result<bool, NoMemory>
    requires tidy { IsTidy config.now told.old }
    requires kind { kind_of r.now ≡ OfGrant }
    ensures { IfOk result (Judges config.now told.old r.now told.new) }
{
    match r {
        Record::Grant {
            epoch,
            call,
            request,
            inst,
            mode,
            file,
            stamp,
            ss,
        } => grant(
            config,
            told,
            *epoch,
            OpenTold {
                call: *call,
                request: *request,
                mode: *mode,
                file: *file,
            },
            GrantTold {
                instance: *inst,
                stamp: *stamp,
                ss: *ss,
            },
        ),
        _ => unreachable!(),
    }
}

/// An open of a call is refused.
pub(crate) fn refusal_record(
    config: &Config,
    told: &mut Told,
    r: &mut Record,
) -> Result<bool, NoMemory>
    requires tidy { IsTidy config.now told.old }
    requires kind { kind_of r.old ≡ OfRefusal }
    ensures { IfOk result (Judges config.now told.old r.old told.new) }
{
    match r {
        Record::Refuse {
            epoch,
            call,
            request,
            inst: _,
            mode,
            file,
            why,
        } => {
            let open = OpenTold {
                call: *call,
                request: *request,
                mode: *mode,
                file: *file,
            };
            let kept = replace(why, Refusal::IsDir);
            refuse(config, told, *epoch, open, kept)
        }
        _ => unreachable!(),
    }
}

/// An open instance does an operation.
pub(crate) fn operation_record(
    config: &Config,
    told: &mut Told,
    r: &Record,
) -> Result<bool, NoMemory>
    requires tidy { IsTidy config.now told.old }
    requires kind { kind_of r.now ≡ OfOperation }
    ensures { IfOk result (Judges config.now told.old r.now told.new) }
{
    match r {
        Record::Act {
            epoch,
            inst,
            n,
            op,
            result: outcome,
        } => act(
            config,
            told,
            ActTold {
                epoch: *epoch,
                instance: *inst,
                n: *n,
            },
            op,
            outcome,
        ),
        _ => unreachable!(),
    }
}

/// A version is committed.
pub(crate) fn commit_record(
    config: &Config,
    told: &mut Told,
    r: &mut Record,
) -> Result<bool, NoMemory>
    requires tidy { IsTidy config.now told.old }
    requires kind { kind_of r.old ≡ OfCommit }
    ensures { IfOk result (Judges config.now told.old r.old told.new) }
{
    match r {
        Record::Commit {
            file,
            site,
            stamp,
            parents,
            content,
        } => {
            let none = Stamps::new(parents.allocator());
            let empty = Bytes::new(content.allocator());
            let version = Version {
                file: *file,
                site: *site,
                stamp: *stamp,
                parents: replace(parents, none),
                content: replace(content, empty),
            };
            commit(config, told, version)
        }
        _ => unreachable!(),
    }
}

/// An open instance is released.
pub(crate) fn release_record(config: &Config, told: &mut Told, r: &Record) -> Result<bool, NoMemory>
    requires tidy { IsTidy config.now told.old }
    requires kind { kind_of r.now ≡ OfRelease }
    ensures { IfOk result (Judges config.now told.old r.now told.new) }
{
    match r {
        Record::Release {
            epoch,
            inst,
            file,
            stamp,
        } => release(
            config,
            told,
            *epoch,
            EndTold {
                instance: *inst,
                file: *file,
                stamp: *stamp,
            },
        ),
        _ => unreachable!(),
    }
}

/// A record that changes nothing may always come next.
pub(crate) fn silent_record(told: &mut Told, r: &Record) -> bool
    requires { kind_of r.now ≡ OfNothing }
    ensures { (c : Config) → Judges c told.old r.now told.new result }
{
    match r {
        Record::Packet {
            number: _,
            from: _,
            to: _,
            kind: _,
        } => pass(told),
        Record::Void => pass(told),
        Record::Budget => pass(told),
        _ => unreachable!(),
    }
}
