// What the tests here say of the values that they look at, each by one call: so no test has a branch behind each of its calls.
ghost use Rattle.std.specs.Prelude.{◌≡◌, true, Ok};

use std::process::{Abort, Termination};
use std::test::Fail;

/// The test goes on only where this is so. In a test it is one call, in place of a branch and a message.
pub fn holds<R: Abort>(rt: &R, is_so: bool)
    ensures { is_so ≡ true }
{
    assert!(rt; is_so);
}

/// What a call gave. Where it failed, why is written, and the test ends: so a test has no exit behind each of its calls.
pub fn given<T, R: Abort + Eprint>(rt: &R, outcome: Result<T, Fail>) -> T
    ensures { outcome ≡ Ok result }
{
    match outcome {
        Ok(value) => value,
        Err(fail) => {
            let _ = failed(fail).report(rt);
            rt.panic("a call failed")
        }
    }
}

fn failed(fail: Fail) -> Result<(), Fail> {
    Err(fail)
}
