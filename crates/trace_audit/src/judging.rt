ghost use Rattle.std.specs.Prelude.{IfOk};
ghost use Rattle.audit_laws.specs.Tidy.Tidy.{IsTidy};
ghost use Rattle.audit_rules.specs.Meant.{meant};
ghost use Rattle.trace_audit.specs.Steps.{Judges};

use crate::kinds::{RecordKind, kind_of};
use crate::meaning::make_meant;
use crate::records::{
    call_record, commit_record, grant_record, look_record, operation_record, refusal_record,
    release_record, silent_record, site_record,
};
use audit_rows::Told;
use locus_ids::{Config, NoMemory};
use trace_book::Record;

/// Whether the record that is meant by this one may come next; where it may, it is told.
pub(crate) fn judge(config: &Config, told: &mut Told, mut r: Record) -> Result<bool, NoMemory>
    requires { IsTidy config.now told.old }
    ensures { IfOk result (Judges config.now told.old (meant config.now told.old r) told.new) }
{
    let says = judge_read(config, told, &mut r);
    drop(r);
    says
}

/// The same of a record that is the caller's: what is kept of it is taken out of it.
fn judge_read(config: &Config, told: &mut Told, r: &mut Record) -> Result<bool, NoMemory>
    requires { IsTidy config.now told.old }
    ensures { IfOk result (Judges config.now told.old (meant config.now told.old r.old) told.new) }
{
    make_meant(config, told, r)?;
    step(config, told, r)
}

/// Whether the record may come next; where it may, it is told.
fn step(config: &Config, told: &mut Told, r: &mut Record) -> Result<bool, NoMemory>
    requires { IsTidy config.now told.old }
    ensures { IfOk result (Judges config.now told.old r.old told.new) }
{
    match kind_of(r) {
        RecordKind::OfSite => site_record(config, told, r),
        RecordKind::OfCall => call_record(config, told, r),
        RecordKind::OfLook => look_record(config, told, r),
        RecordKind::OfGrant => grant_record(config, told, r),
        RecordKind::OfRefusal => refusal_record(config, told, r),
        RecordKind::OfOperation => operation_record(config, told, r),
        RecordKind::OfCommit => commit_record(config, told, r),
        RecordKind::OfRelease => release_record(config, told, r),
        RecordKind::OfNothing => Ok(silent_record(told, r)),
    }
}
