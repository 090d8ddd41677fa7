// Where an accepted call begins, by what the numbers of its process stand for.
ghost use Rattle.std.specs.Prelude.{◌≡◌};
ghost use Rattle.call_rules.specs.Descriptors.{beginning};
ghost use Rattle.audit_sites.specs.Rows.{named_at};

use crate::site::SiteRow;
use call_scripts::{
    begins_change, begins_close, begins_open, begins_read, begins_walk, is_past_greatest,
};
use locus_ids::{CallId, Refusal};
use trace_book::{Beginning, Call};

impl SiteRow {
    /// Where a call of this name begins that the site accepts.
    pub fn beginning(&self, process: u8, call: CallId, words: &Call) -> Beginning
        ensures { result ≡ beginning (named_at self.now process) self.now.epoch call words.now }
    {
        let now = self.epoch();
        match words {
            Call::Open { path: _, mode: _ } => begins_open(now, call, self.lowest_free(process)),
            Call::Read { fd, at: _, len: _ } => begins_read(now, self.descriptor(process, *fd)),
            Call::Write { fd, at, bytes } => {
                if is_past_greatest(*at, bytes.as_slice()) {
                    return Beginning::Denied {
                        why: Refusal::TooLong,
                    };
                }
                begins_change(now, self.descriptor(process, *fd))
            }
            Call::Cut { fd, len: _ } => begins_change(now, self.descriptor(process, *fd)),
            Call::Commit { fd } => begins_change(now, self.descriptor(process, *fd)),
            Call::Abort { fd } => begins_change(now, self.descriptor(process, *fd)),
            Call::Close { fd } => begins_close(now, self.descriptor(process, *fd)),
            _ => begins_walk(now, call),
        }
    }
}
