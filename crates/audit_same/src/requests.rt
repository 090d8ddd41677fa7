ghost use Rattle.std.specs.Prelude.{◌≡◌};
ghost use Rattle.promises.specs.Same.{same_request};

use crate::operations::{same_op, same_what};
use call_rules::Want;

/// The two ask for the same look, operation or close.
pub fn same_request(a: &Want, b: &Want) -> bool
    ensures { result ≡ same_request a.now b.now }
{
    match a {
        Want::Look { file, what } => match b {
            Want::Look { file: f, what: w } => *file == *f && same_what(what, w),
            _ => false,
        },
        Want::Do { inst, op } => match b {
            Want::Do { inst: i, op: o } => *inst == *i && same_op(op, o),
            _ => false,
        },
        Want::Close { inst } => match b {
            Want::Close { inst: i } => *inst == *i,
            _ => false,
        },
        _ => false,
    }
}
