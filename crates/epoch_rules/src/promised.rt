ghost use Rattle.std.specs.Prelude.{◌≡◌, ◌==◌, ◌&&◌, not};
ghost use Rattle.trace_book.specs.Same.{same_epoch};
ghost use Rattle.epoch_rules.specs.Answers.{poll_answer};

use crate::{is_epoch_below, same_epoch};
use locus_ids::EpochId;

/// The greatest id that a site has promised, and whether it has joined that epoch.
#[derive(Clone, Copy)]
pub struct Promised {
    pub id: EpochId,
    /// The promised epoch is joined, or nothing was promised yet.
    pub installed: bool,
}

/// What a poll is answered.
#[derive(Clone, Copy, PartialEq, Eq)]
pub enum PollAnswer {
    /// The id is greater than the promised one: it is promised now.
    Promise,
    /// The promised id isn't joined yet: it is promised again.
    Again,
    /// Any other id is refused, with the promised one.
    Refuse(EpochId),
}

impl Promised {
    /// What a poll with this id is answered.
    pub fn on_poll(self, id: EpochId) -> PollAnswer
        ensures { result ≡ poll_answer id self }
    {
        if is_epoch_below(self.id, id) {
            PollAnswer::Promise
        } else if same_epoch(id, self.id) && !self.installed {
            PollAnswer::Again
        } else {
            PollAnswer::Refuse(self.id)
        }
    }

    /// An install of this id, with this boot number for the site, is taken by a site that runs with its boot number: only
    /// the promised id, once.
    pub fn may_install(self, id: EpochId, boot: u32, own_boot: u32) -> bool
        ensures { result ≡ (same_epoch id self.id && (not self.installed && (boot == own_boot))) }
    {
        same_epoch(id, self.id) && (!self.installed && boot == own_boot)
    }
}
