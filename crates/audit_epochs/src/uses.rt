//! Which open instance a call uses by its descriptor, and which use of it the call is.

ghost use Rattle.std.specs.Prelude.{◌≡◌, IfOk};
ghost use Rattle.promises.specs.Past.{is_close};
ghost use Rattle.audit_epochs.specs.Changes.{next_use, turn_in, used_by};

use crate::EpochRow;
use locus_ids::{EpochId, NoMemory, Serial};
use trace_book::{Beginning, Call};

impl EpochRow {
    /// Which use of its instance a call is that begins so; 0 where it uses none of the epoch.
    pub fn turn(&self, begins: &Beginning, words: &Call) -> Result<u32, NoMemory>
        ensures { IfOk result (λ turn. turn ≡ turn_in begins.now words.now self.now) }
    {
        match used_by(begins, words, self.id) {
            Some(inst) => self.next_use(inst),
            None => Ok(0),
        }
    }

    /// Which use of the open instance the next one is; 0 where it isn't open.
    fn next_use(&self, inst: Serial) -> Result<u32, NoMemory>
        ensures { IfOk result (λ turn. turn ≡ next_use inst self.now) }
    {
        match self.opened.named(inst) {
            Some(row) => match row.uses().checked_add(1) {
                Some(turn) => Ok(turn),
                None => Err(NoMemory),
            },
            None => Ok(0),
        }
    }
}

/// The instance of the epoch that a call uses which begins so.
pub(crate) fn used_by(begins: &Beginning, words: &Call, epoch: EpochId) -> Option<Serial>
    ensures { result ≡ used_by begins.now words.now epoch }
{
    match begins {
        Beginning::Uses { epoch: e, inst } => {
            if *e == epoch && !is_close(words) {
                Some(*inst)
            } else {
                None
            }
        }
        Beginning::Denied { why: _ } => None,
        Beginning::Walks { call: _ } => None,
        Beginning::Reopens {
            version: _,
            last: _,
        } => None,
        Beginning::Frees => None,
    }
}

fn is_close(words: &Call) -> bool
    ensures { result ≡ is_close words.now }
{
    matches!(words, Call::Close { fd: _ })
}
