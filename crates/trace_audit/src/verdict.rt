ghost use Rattle.std.specs.Prelude.{◌≡◌, cond};

/// What an audit says of the records so far.
#[derive(Clone, Copy)]
pub enum Verdict {
    /// Each is consistent.
    Good,
    /// One isn't.
    Broken,
}

/// What an audit says where all records are consistent, or one isn't.
pub(crate) fn said_where(is_sound: bool) -> Verdict
    ensures { result ≡ cond is_sound Verdict.Good Verdict.Broken }
{
    if is_sound {
        Verdict::Good
    } else {
        Verdict::Broken
    }
}
