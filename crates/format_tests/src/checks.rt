// What the tests here say of the values that they look at, each by one call: so no test has a branch behind each of its calls.
ghost use Rattle.std.specs.Prelude.{◌≡◌, true};

use std::process::Abort;

/// The test goes on only where this is so. In a test it is one call, in place of a branch and a message.
pub fn holds<R: Abort>(rt: &R, is_so: bool)
    ensures { is_so ≡ true }
{
    assert!(rt; is_so);
}
