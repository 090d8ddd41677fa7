ghost use Rattle.std.specs.Prelude.{◌≡◌, OnOk};
ghost use Rattle.audit_laws.specs.Tidy.Tidy.{IsTidy};
ghost use Rattle.audit_rules.specs.Meant.{meant};

use audit_rows::{Told, look_meant, reply_meant};
use locus_ids::{Config, NoMemory};
use std::mem::replace;
use trace_book::{Record, Reply, What};

/// Makes the record as it was read the one that is meant by it: a look at a whole content and a reply are the ones that the script of
/// their call makes, where these are read so.
pub(crate) fn make_meant(config: &Config, told: &Told, r: &mut Record) -> Result<(), NoMemory>
    requires { IsTidy config.now told.now }
    ensures { OnOk result (r.new ≡ meant config.now told.now r.old) }
{
    match r {
        Record::Look {
            epoch: _,
            call,
            request,
            file: _,
            what,
            result: _,
        } => {
            let read = replace(what, What::List);
            *what = look_meant(config, told, *call, *request, read)?;
            Ok(())
        }
        Record::Answer {
            site: _,
            process: _,
            call,
            reply,
        } => {
            let read = replace(reply, Reply::Done);
            *reply = reply_meant(config.mounts.allocator(), config, told, *call, read)?;
            Ok(())
        }
        _ => Ok(()),
    }
}
