ghost use Rattle.std.specs.Prelude.{◌≡◌};
ghost use Rattle.call_rules.specs.Descriptors.{beginning};
ghost use Rattle.role_steps.specs.Requests.{descriptors_of};

use crate::users::UsingSite;
use locus_ids::{CallId, EpochId};
use trace_book::{Beginning, Call};
use waiting_calls::begins_call;

impl UsingSite {
    /// Where an accepted call of this name begins, by the descriptors of its process and the epoch that the site is in.
    pub(crate) fn beginning(
        &self,
        now: Option<EpochId>,
        process: u8,
        call: CallId,
        words: &Call,
    ) -> Beginning
        ensures { result ≡ beginning (descriptors_of self.now process) now call words.now }
    {
        begins_call(&self.descriptors, now, process, call, words)
    }
}
