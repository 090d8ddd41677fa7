ghost use Rattle.std.specs.Prelude.{◌≡◌, IfOk};
ghost use Rattle.audit_rules.specs.Meant.{reply_meant, what_meant};

use crate::is_read_so;
use call_rules::Want;
use locus_ids::NoMemory;
use std::alloc::Global;
use trace_book::{Reply, What};

/// A look at a whole content is at the version that the script asks for.
pub fn what_meant(asked: &Want, read: What) -> What
    ensures { result ≡ what_meant asked.now read }
{
    let What::Whole { stamp: _ } = read else {
        return read;
    };
    match asked {
        Want::Look {
            file: _,
            what: What::Whole { stamp },
        } => What::Whole { stamp: *stamp },
        _ => read,
    }
}

/// A reply is the one that the script gives, where that is read so.
pub fn reply_meant(alloc: Global, asked: Want, read: Reply) -> Result<Reply, NoMemory>
    ensures { IfOk result (λ r. r ≡ reply_meant asked read) }
{
    match asked {
        Want::Give { reply } => {
            if is_read_so(alloc, &reply, &read)? {
                Ok(reply)
            } else {
                Ok(read)
            }
        }
        _ => Ok(read),
    }
}
