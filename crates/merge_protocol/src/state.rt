ghost use Rattle.std.specs.Prelude.{◌≡◌, ◌++◌, true, None, [], IfOk, OnOk};
ghost use Rattle.site_frame.specs.Printed.{printed};
ghost use Rattle.role_steps.specs.Tables.{without_row};
ghost use Rattle.role_steps.specs.Epochs.{leaves, on_promise, on_joined, is_in};
ghost use Rattle.merge_protocol.specs.Parts.{EpochPart, epoch_part, alone, epoch_named};

use crate::FormingHeader;
use epoch_rules::{Promised, same_epoch};
use keyed_tables::SortedTable;
use locus_ids::{EpochId, NoMemory, SiteId, Sites};
use partition_protocol::PollRound;
use role_steps::InEpoch;
use std::alloc::Global;
use std::marker::Model;
use trace_book::Record;
use wire_messages::Outbox;

/// A site's place in epochs.
#[derive(Drop)]
pub struct EpochState {
    /// The boot number that the site runs with.
    pub(crate) boot: u32,
    pub(crate) promised: Promised,
    /// The undecided round that the site began.
    pub(crate) round: Option<PollRound>,
    pub(crate) epoch: Option<InEpoch>,
    /// The members that haven't answered an install.
    pub(crate) installs: SortedTable<SiteId>,
    /// The groups whose report isn't answered.
    pub(crate) reports: SortedTable<u8>,
}

impl Model for EpochState {
    ghost use Rattle.merge_protocol.specs.Parts.{EpochPart};

    ghost Value = { EpochPart };

    ghost view = { λ s. record { boot = s.boot; promised = s.promised.id; installed = s.promised.installed; round = s.round; epoch = s.epoch; installs = s.installs; reports = s.reports } };
}

impl EpochState {
    /// A site that has just booted: it has promised nothing and is in no epoch.
    pub fn new(alloc: Global, boot: u32) -> EpochState
        ensures { result ≡ record { boot = boot; promised = record { number = 0; site = 0; boot = 0 }; installed = true; round = None; epoch = None; installs = []; reports = [] } }
    {
        EpochState {
            boot,
            promised: Promised {
                id: EpochId {
                    number: 0,
                    site: 0,
                    boot: 0,
                },
                installed: true,
            },
            round: None,
            epoch: None,
            installs: SortedTable::new(alloc),
            reports: SortedTable::new(alloc),
        }
    }

    /// The boot number that the site runs with.
    pub fn boot(&self) -> u32
        ensures { result ≡ self.now.boot }
    {
        self.boot
    }

    /// The epoch that the site is in.
    pub fn epoch(&self) -> Option<InEpoch>
        ensures { result ≡ self.now.epoch }
    {
        self.epoch
    }

    /// The groups whose report isn't answered, ascending.
    pub fn reports(&self) -> &[u8]
        ensures { result.now ≡ self.now.reports }
    {
        self.reports.as_slice()
    }

    /// The site leaves the epoch that it is in, if it is in one, and tells it. The id of that epoch is given back: the other
    /// roles leave it too.
    pub fn leave(&mut self, me: SiteId, out: &mut Outbox) -> Result<Option<EpochId>, NoMemory>
        ensures left { IfOk result (λ left. left ≡ epoch_named self.old.epoch) }
        ensures view { OnOk result (self.new ≡ epoch_part (leaves me (alone self.old)).view) }
        ensures packets { OnOk result (out.new.packets ≡ out.old.packets ++ (leaves me (alone self.old)).sent) }
        ensures records { OnOk result (out.new.records ≡ out.old.records ++ printed (leaves me (alone self.old)).told) }
    {
        match self.epoch {
            None => Ok(None),
            Some(epoch) => {
                out.note(Record::Leave {
                    site: me.get(),
                    epoch: epoch.id,
                })?;
                self.epoch = None;
                self.installs.clear();
                self.reports.clear();
                Ok(Some(epoch.id))
            }
        }
    }

    /// A promise has come; it is put into the round that it counts in.
    pub fn on_promise(&mut self, header: FormingHeader, reach: Sites)
        ensures { self.new ≡ epoch_part (on_promise header.from header.from_boot header.id reach (alone self.old)).view }
    {
        if let Some(round) = &mut self.round {
            round.on_promise(header.from, header.from_boot, header.id, reach);
        }
    }

    /// A member has joined: it isn't sent the install again.
    pub fn on_joined(&mut self, from: SiteId, id: EpochId)
        ensures { self.new ≡ epoch_part (on_joined from id (alone self.old)).view }
    {
        if self.is_in(id) {
            self.installs.remove(u64::from(from.get()));
        }
    }

    /// The site is in the epoch of this id.
    pub fn is_in(&self, id: EpochId) -> bool
        ensures { result ≡ is_in id self.now.epoch }
    {
        match &self.epoch {
            Some(epoch) => same_epoch(epoch.id, id),
            None => false,
        }
    }

    /// The report of a group is answered: it isn't sent again.
    pub fn on_report_ok(&mut self, group: u8)
        ensures { self.new ≡ record self.old { reports = without_row (λ g. g) group self.old.reports } }
    {
        self.reports.remove(u64::from(group));
    }
}
