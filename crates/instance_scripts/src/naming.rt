ghost use Rattle.std.specs.Prelude.{◌≡◌, ◌∷◌, [], List, IfOk};
ghost use Rattle.call_rules.specs.Naming.{renames};

use crate::closing::{close_all, give_up};
use call_rules::{Answer, Want};
use locus_ids::{Bytes, NoMemory, Serial};
use std::alloc::Global;
use trace_book::{Op, Reply};

/// The directory is open: the entry is renamed, and the directory is closed.
pub fn renames(
    alloc: Global,
    dir: Serial,
    component: &[u8],
    name: &[u8],
    answers: &[Answer],
) -> Result<Want, NoMemory>
    ensures { IfOk result (λ w. w ≡ renames dir component.now name.now answers.now) }
{
    match answers {
        [] => {
            let component = Bytes::from_slice(alloc, component)?;
            let name = Bytes::from_slice(alloc, name)?;
            Ok(Want::Do {
                inst: dir,
                op: Op::Rename { component, name },
            })
        }
        [Answer::Did { .. }, answers @ ..] => close_all(&[dir], Reply::Done, answers),
        [Answer::Refused { why }, answers @ ..] => give_up(&[dir], why, answers),
        _ => Ok(Want::Never),
    }
}
