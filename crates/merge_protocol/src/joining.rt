ghost use Rattle.std.specs.Prelude.{◌≡◌, [], ◌∷◌, ◌++◌, map, OnOk};
ghost use Rattle.locus_ids.specs.Sites.{has};
ghost use Rattle.role_steps.specs.Views.{pack_sites};
ghost use Rattle.role_steps.specs.Epochs.{own_groups, joined_view, joined_packet, others_of, install_packet, installs_all, unanswered};
ghost use Rattle.merge_protocol.specs.Parts.{EpochPart, is_other, epoch_part, alone, install_answer, passed_part, passed_round, decided, decision};

use crate::packets::Sender;
use crate::{EpochState, FormingHeader};
use epoch_rules::{boot_in, is_linked, site_at};
use keyed_tables::SortedTable;
use locus_ids::sizes::SITES;
use locus_ids::{Config, Links, Members, NoMemory, SiteId};
use partition_protocol::PollRound;
use role_steps::InEpoch;
use trace_book::Record;
use wire_messages::{Body, Outbox, Packet};

/// What an install is answered.
#[derive(Clone, Copy, PartialEq, Eq)]
pub enum InstallAnswer {
    /// The site joins the epoch, and then says so.
    Joins,
    /// The site is in the epoch already, and says so again.
    Again,
    /// The install isn't of the epoch that the site has promised and waits for.
    Nothing,
}

impl EpochState {
    /// What an install of this epoch is answered. Nothing changes yet.
    pub fn on_install(&self, me: SiteId, header: FormingHeader, members: &Members) -> InstallAnswer
        ensures { result ≡ install_answer me header.id members.now self.now }
    {
        let boot = boot_in(&members.boot, me);
        if self.promised.may_install(header.id, boot, self.boot) {
            InstallAnswer::Joins
        } else if self.is_in(header.id) {
            InstallAnswer::Again
        } else {
            InstallAnswer::Nothing
        }
    }

    /// The site joins the epoch and tells it. The other roles make their tables and report their packs then.
    pub fn join(
        &mut self,
        config: &Config,
        me: SiteId,
        epoch: InEpoch,
        out: &mut Outbox,
    ) -> Result<(), NoMemory>
        ensures view { OnOk result (self.new ≡ epoch_part (joined_view config.now me epoch.id epoch.members (alone self.old))) }
        ensures packets { OnOk result (out.new.packets ≡ out.old.packets) }
        ensures records { OnOk result (out.new.records ≡ out.old.records ++ Record.Join me epoch.id epoch.members ∷ []) }
    {
        out.note(Record::Join {
            site: me.get(),
            epoch: epoch.id,
            members: epoch.members,
        })?;
        put_own_groups(&mut self.reports, config, me)?;
        self.promised.installed = true;
        self.round = None;
        self.epoch = Some(epoch);
        self.installs.clear();
        Ok(())
    }

    /// The packet that answers an install: the site is in the epoch.
    pub fn joined_packet(&self, me: SiteId, header: FormingHeader) -> Packet
        ensures { result ∷ [] ≡ joined_packet me header.from header.from_boot header.id (alone self.now) }
    {
        let sender = Sender {
            me,
            boot: self.boot,
        };
        sender.forming(header.id, header.from, header.from_boot, Body::Joined)
    }

    /// The polled sites that are no longer connected with the boot number that was polled are passed over. The epoch that is
    /// decided is given back, exactly where no answer is missing then: the site joins it.
    pub fn pass_over(&mut self, me: SiteId, links: &Links) -> Option<InEpoch>
        ensures view { self.new ≡ passed_part links.now self.old }
        ensures decided { result ≡ decision me links.now self.old.boot (passed_round links.now self.old.round) }
    {
        match &self.round {
            None => None,
            Some(round) => {
                let passed = round.passed_over(links);
                let decided = decide(&passed, me, links, self.boot);
                self.round = Some(passed);
                decided
            }
        }
    }

    /// The initiator that has joined sends an install to each other member.
    pub fn send_installs(
        &mut self,
        me: SiteId,
        epoch: &InEpoch,
        out: &mut Outbox,
    ) -> Result<(), NoMemory>
        ensures view { OnOk result (self.new ≡ epoch_part (installs_all me epoch.now.id epoch.now.members (alone self.old)).view) }
        ensures packets { OnOk result (out.new.packets ≡ out.old.packets ++ (installs_all me epoch.now.id epoch.now.members (alone self.old)).sent) }
        ensures records { OnOk result (out.new.records ≡ out.old.records) }
    {
        let sender = Sender {
            me,
            boot: self.boot,
        };
        put_others(&mut self.installs, me, &epoch.members)?;
        send_installs(&sender, epoch, self.installs.as_slice(), out)
    }
}

/// What a round decides, once no answer is missing: the epoch, with the sites that are chosen.
fn decide(round: &PollRound, me: SiteId, links: &Links, boot: u32) -> Option<InEpoch>
    ensures { result ≡ decided me links.now boot round.now (unanswered round.now) }
{
    if !round.is_answered() {
        return None;
    }
    let set = round.chosen_set(me, links);
    Some(InEpoch {
        id: round.id(),
        members: round.chosen_members(me, boot, set),
    })
}

/// The site has a pack of the group.
fn has_pack(config: &Config, group: u8, me: SiteId) -> bool
    ensures { result ≡ has (pack_sites config.now group) me }
{
    match config.packs.get(usize::from(group)) {
        Some(sites) => sites.has(me),
        None => false,
    }
}

/// The groups of which the site has a pack, in place of what stands.
fn put_own_groups(groups: &mut SortedTable<u8>, config: &Config, me: SiteId) -> Result<(), NoMemory>
    ensures { OnOk result (groups.new ≡ own_groups config.now me) }
{
    groups.clear();
    for group in (0..4).rev() {
        if has_pack(config, group, me) {
            groups.put(group)?;
        }
    }
    Ok(())
}

/// The site is a member, and another one.
fn is_other(me: SiteId, members: &Members, site: SiteId) -> bool
    ensures { result ≡ is_other me members.now site }
{
    is_linked(&members.boot, site) && site != me
}

/// The other members, in place of what stands.
fn put_others(
    sites: &mut SortedTable<SiteId>,
    me: SiteId,
    members: &Members,
) -> Result<(), NoMemory>
    ensures { OnOk result (sites.new ≡ others_of me members.now) }
{
    sites.clear();
    for place in (0..SITES).rev() {
        let site = site_at(place);
        if is_other(me, members, site) {
            sites.put(site)?;
        }
    }
    Ok(())
}

/// Sends an install to each of these members.
pub(crate) fn send_installs(
    sender: &Sender,
    epoch: &InEpoch,
    sites: &[SiteId],
    out: &mut Outbox,
) -> Result<(), NoMemory>
    ensures packets { OnOk result (out.new.packets ≡ out.old.packets ++ map (install_packet sender.now.me sender.now.boot epoch.now.id epoch.now.members) sites.now) }
    ensures records { OnOk result (out.new.records ≡ out.old.records) }
{
    for site in sites {
        out.send(sender.install_packet(epoch, *site))?;
    }
    Ok(())
}
