ghost use Rattle.std.specs.Prelude.{◌≡◌, ◌+◌, ◌==◌, ◌&&◌, not, cond, [], ◌↔◌, IsTrue};
ghost use Rattle.epoch_rules.specs.of_role_steps.Views.{boot_in};
ghost use Rattle.epoch_rules.specs.of_role_steps.Epochs.{new_round, counts_promise, with_promise, passed_over, has_promised, unanswered, chosen_set, chosen_members};

use crate::chosen::{candidates, fully_connected, member_boots};
use crate::passed::{has_all, is_missing, kept_promises, left_boots, put_promise};
use epoch_rules::{boot_in, reached, same_epoch};
use locus_ids::sizes::SITES;
use locus_ids::{EpochId, Links, Members, SiteId, Sites};
use std::marker::Model;

/// An undecided round of polls.
#[derive(Drop)]
pub struct PollRound {
    id: EpochId,
    /// The boot numbers of the polled sites that aren't passed over.
    polled: Links,
    /// What each site that promised reaches, site 1 first.
    promises: [Option<Sites>; SITES],
}

impl Model for PollRound {
    ghost use Rattle.epoch_rules.specs.of_role_steps.declared.rounds.Round.{Round};
    ghost use Rattle.partition_protocol.specs.Promising.{promises_from};

    ghost Value = { Round };

    ghost view = { λ r. record { id = r.id; polled = r.polled; promises = promises_from 1 r.promises } };
}

impl PollRound {
    /// A round of this id that polls the sites with a boot number here. No promise has come.
    pub fn new(id: EpochId, polled: Links) -> PollRound
        ensures { result ≡ new_round id polled }
    {
        PollRound {
            id,
            polled,
            promises: [None; SITES],
        }
    }

    /// The id that is polled.
    pub fn id(&self) -> EpochId
        ensures { result ≡ self.now.id }
    {
        self.id
    }

    /// The boot numbers of the polled sites that aren't passed over.
    pub fn polled(&self) -> Links
        ensures { result ≡ self.now.polled }
    {
        self.polled
    }

    /// A promise counts where it is of this round's id and of the boot that was polled.
    pub fn counts_promise(&self, from: SiteId, from_boot: u32, id: EpochId) -> bool
        ensures { result ≡ counts_promise from from_boot id self.now }
    {
        same_epoch(self.id, id) && boot_in(&self.polled.boot, from) == from_boot
    }

    /// Takes a promise that counts; of several of a site the last one stays. Any other changes nothing.
    pub fn on_promise(&mut self, from: SiteId, from_boot: u32, id: EpochId, reach: Sites)
        ensures { self.new ≡ cond (counts_promise from from_boot id self.old) (with_promise from reach self.old) self.old }
    {
        if self.counts_promise(from, from_boot, id) {
            self.put_promise(from, reach);
        }
    }

    fn put_promise(&mut self, from: SiteId, reach: Sites)
        ensures { self.new ≡ with_promise from reach self.old }
    {
        put_promise(&mut self.promises, from, reach);
    }

    /// This round, with the polled sites passed over that are no longer connected with the boot number that was polled.
    pub fn passed_over(&self, links: &Links) -> PollRound
        ensures { result ≡ passed_over links.now self.now }
    {
        let polled = left_boots(links, &self.polled);
        PollRound {
            id: self.id,
            polled,
            promises: kept_promises(&self.promises, &polled),
        }
    }

    /// The site is polled and its promise hasn't come.
    pub fn is_awaited(&self, site: SiteId) -> bool
        ensures { result ≡ (not (boot_in self.now.polled.boot site == 0) && not (has_promised self.now site)) }
    {
        is_missing(&self.promises, &self.polled, site)
    }

    /// No answer is missing.
    pub fn is_answered(&self) -> bool
        ensures { IsTrue result ↔ unanswered self.now ≡ [] }
    {
        has_all(&self.promises, &self.polled)
    }

    /// Whom the initiator chooses: of itself and those that promised and reach it, so many that each reaches each other.
    pub fn chosen_set(&self, me: SiteId, links: &Links) -> Sites
        ensures { result ≡ chosen_set me links.now self.now }
    {
        let reach = reached(links);
        let mut promises = self.promises;
        put_promise(&mut promises, me, reach);
        fully_connected(candidates(me, &self.promises).meet(reach), &promises)
    }

    /// The chosen sites with their boot numbers: the initiator's own, and of the others those that were polled.
    pub fn chosen_members(&self, me: SiteId, boot: u32, set: Sites) -> Members
        ensures { result ≡ chosen_members me boot self.now set }
    {
        Members {
            boot: member_boots(&self.polled, me, boot, set),
        }
    }
}
