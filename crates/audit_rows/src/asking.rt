ghost use Rattle.std.specs.Prelude.{◌≡◌, IfOk};
ghost use Rattle.promises.specs.Rows.{asks_open};
ghost use Rattle.audit_told_calls.specs.Once.{OneEach};

use audit_asked::is_open_of;
use audit_calls::CallRow;
use audit_told_calls::{Told, asks};
use locus_ids::{CallId, Config, FileId, Mode, NoMemory};

/// An open as a record tells of it: whose it is, the number of its request, and of what.
#[derive(Clone, Copy)]
pub struct OpenTold {
    pub call: CallId,
    pub request: u16,
    pub mode: Mode,
    pub file: FileId,
}

/// The open is what the call asks next, and has the number of that request.
pub(crate) fn asks_open(
    config: &Config,
    told: &Told,
    k: &CallRow,
    open: OpenTold,
) -> Result<bool, NoMemory>
    requires { OneEach told.now }
    ensures { IfOk result (λ yes. yes ≡ asks_open config.now told.now open.request open.mode open.file k.now) }
{
    if usize::from(open.request) != k.answers().len() + 1 {
        return Ok(false);
    }
    let asked = asks(config, told, k)?;
    Ok(is_open_of(open.mode, open.file, &asked))
}
