ghost use Rattle.std.specs.Prelude.{◌≡◌, ◌++◌, OnOk};
ghost use Rattle.role_steps.specs.Views.{is_member, first_site, members_of, pack_sites, sync_site, packet, to_sync};

use locus_ids::sizes::SITES;
use locus_ids::{Config, EpochId, Members, NoMemory, SiteId, Sites};
use role_steps::wire_messages::{Body, Outbox, Packet};
use std::marker::Model;

/// Where a role stands and under what name it sends: the cluster, the site with its boot number, and the epoch with its
/// members. A site outside of all epochs has a frame without members.
#[derive(Drop)]
pub struct SiteFrame {
    pub config: Config,
    pub me: SiteId,
    pub boot: u32,
    pub epoch: EpochId,
    pub members: Members,
}

impl Model for SiteFrame {
    ghost use Rattle.role_steps.specs.Views.{Frame};

    ghost Value = { Frame };

    ghost view = { λ f. record { config = f.config; me = f.me; boot = f.boot; epoch = f.epoch; members = f.members } };
}

impl SiteFrame {
    ghost use Rattle.role_steps.specs.Views.{Frame};

    /// The site is a member of the epoch.
    pub fn is_member(&self, site: SiteId) -> bool
        ensures { result ≡ is_member self.now.members site }
    {
        self.members.boot_of(site) != 0
    }

    /// The lowest-numbered member of the set.
    #[tactic(auto, using(role_steps::proofs::Numbers::next_site))]
    pub fn first_member(&self, set: Sites) -> Option<SiteId>
        ensures { result ≡ first_site (members_of self.now.members set) }
    {
        for place in 0..SITES as u8 {
            if let Some(site) = SiteId::new(place + 1)
                && set.has(site)
                && self.is_member(site)
            {
                return Some(site);
            }
        }
        None
    }

    /// The sites that have a pack of the group; none for a group that isn't there.
    pub fn pack_sites(&self, group: u8) -> Sites
        ensures { result ≡ pack_sites self.now.config group }
    {
        match self.config.packs.get(usize::from(group)) {
            Some(sites) => *sites,
            None => Sites(0),
        }
    }

    /// The synchronization site of the group: the lowest-numbered member that has a pack of it.
    pub fn sync_site(&self, group: u8) -> Option<SiteId>
        ensures { result ≡ sync_site self.now.config self.now.members group }
    {
        self.first_member(self.pack_sites(group))
    }

    /// A packet of this site to a member, in the epoch.
    pub fn packet(&self, to: SiteId, body: Body) -> Packet
        ensures { result ≡ packet self.now to body }
    {
        Packet {
            from: self.me,
            from_boot: self.boot,
            to,
            to_boot: self.members.boot_of(to),
            epoch: self.epoch,
            body,
        }
    }

    /// Sends to the synchronization site of the group, where there is one.
    pub fn send_to_sync(&self, group: u8, body: Body, out: &mut Outbox) -> Result<(), NoMemory>
        ensures packets { OnOk result (out.new.packets ≡ out.old.packets ++ to_sync self.now group body) }
        ensures records { OnOk result (out.new.records ≡ out.old.records) }
    {
        match self.sync_site(group) {
            Some(to) => out.send(self.packet(to, body)),
            None => Ok(()),
        }
    }
}
