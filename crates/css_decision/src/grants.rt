ghost use Rattle.std.specs.Prelude.{◌≡◌};
ghost use Rattle.commit_graph.specs.Grants.{kept_refusal};
ghost use Rattle.role_steps.specs.Opens.{mode_of};
ghost use Rattle.role_steps.specs.Versions.{stamps_of};

use locus_ids::{Mode, Refusal};
use role_steps::VersionRow;
use wire_messages::Opening;

/// The mode of an open.
pub fn mode_of(how: Opening) -> Mode
    ensures { result ≡ mode_of how }
{
    match how {
        Opening::Read => Mode::Read,
        Opening::Write => Mode::Write,
        Opening::Resolve { site: _ } => Mode::Resolve,
        Opening::Mend => Mode::Mend,
        Opening::Make { set: _, kind: _ } => Mode::Make,
    }
}

/// What the kept versions refuse: ordinary access wants one, a resolution several.
pub fn kept_refusal(mode: Mode, kept: &[VersionRow]) -> Option<Refusal>
    ensures { result ≡ kept_refusal mode (stamps_of kept.now) }
{
    match mode {
        Mode::Read | Mode::Write => match kept {
            [] => Some(Refusal::NoStorage),
            [_] => None,
            [first, second, ..] => Some(Refusal::Conflict {
                a: first.stamp,
                b: second.stamp,
            }),
        },
        Mode::Resolve => match kept {
            [] => Some(Refusal::NoStorage),
            [_] => Some(Refusal::NoConflict),
            _ => None,
        },
        Mode::Mend => match kept {
            [] => Some(Refusal::NoStorage),
            _ => None,
        },
        Mode::Make => None,
    }
}
