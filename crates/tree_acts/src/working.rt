// What becomes of an open instance by a commit that tells its version again, and by an abort.
ghost use Rattle.std.specs.Prelude.{◌≡◌, ◌<◌};
ghost use Rattle.file_effects.specs.Works.{aborted, begins_owing, counted};

use file_effects::Work;
use locus_ids::{Bytes, Mode};

/// One operation more is done, and nothing else is other.
pub fn count(work: &mut Work)
    requires { work.old.ops < 4294967295 }
    ensures { work.new ≡ counted work.old }
{
    work.ops += 1;
    work.fresh = false;
}

/// The instance goes back to this content of its last version.
pub fn abort(work: &mut Work, mode: Mode, content: Bytes)
    requires { work.old.ops < 4294967295 }
    ensures { work.new ≡ aborted mode content work.old }
{
    work.ops += 1;
    work.fresh = false;
    work.content = content;
    work.owes = begins_owing(mode) && work.committed.is_none();
    work.changed.clear();
}

/// The first commit of an instance of this mode is owed from its grant on.
fn begins_owing(mode: Mode) -> bool
    ensures { result ≡ begins_owing mode }
{
    matches!(mode, Mode::Make | Mode::Resolve)
}
