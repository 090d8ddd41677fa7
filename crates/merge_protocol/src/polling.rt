ghost use Rattle.std.specs.Prelude.{◌≡◌, ◌↔◌, ◌+◌, [], ◌∷◌, ◌++◌, map, IfOk, IfErr, IfSome, IsNone, OnOk};
ghost use Rattle.site_frame.specs.Printed.{printed};
ghost use Rattle.role_steps.specs.Epochs.{begins_round, starts_merge, starts_part, promises, polls, on_poll, on_refuse, forming, poll_packet, polled_sites};
ghost use Rattle.merge_protocol.specs.declared.errors.EpochError.TheVariants.{NoNumber};
ghost use Rattle.merge_protocol.specs.Parts.{epoch_part, alone, epoch_named, left_at_poll, left_at_refuse, polled_again, promises_to};

use crate::links::{polled_merge, polled_part};
use crate::packets::Sender;
use crate::{EpochError, EpochState, FormingHeader};
use epoch_rules::{PollAnswer, Promised, is_linked, next_number, reached, same_epoch, site_at};
use locus_ids::sizes::SITES;
use locus_ids::{EpochId, Links, NoMemory, SiteId, Sites};
use partition_protocol::PollRound;
use wire_messages::{Body, Outbox};

impl EpochState {
    /// The site promises a greater id: it leaves its epoch, which is given back, and the round that it had undecided ends.
    fn promise(
        &mut self,
        me: SiteId,
        id: EpochId,
        reach: Sites,
        out: &mut Outbox,
    ) -> Result<Option<EpochId>, NoMemory>
        ensures left { IfOk result (λ left. left ≡ epoch_named self.old.epoch) }
        ensures view { OnOk result (self.new ≡ epoch_part (promises me id reach (alone self.old)).view) }
        ensures packets { OnOk result (out.new.packets ≡ out.old.packets ++ (promises me id reach (alone self.old)).sent) }
        ensures records { OnOk result (out.new.records ≡ out.old.records ++ printed (promises me id reach (alone self.old)).told) }
    {
        let left = self.leave(me, out)?;
        self.promised = Promised {
            id,
            installed: false,
        };
        self.round = None;
        Ok(left)
    }

    /// Polls these sites for the id.
    fn poll(
        &mut self,
        me: SiteId,
        id: EpochId,
        polled: Links,
        out: &mut Outbox,
    ) -> Result<(), NoMemory>
        ensures view { OnOk result (self.new ≡ epoch_part (polls me id polled (alone self.old)).view) }
        ensures packets { OnOk result (out.new.packets ≡ out.old.packets ++ (polls me id polled (alone self.old)).sent) }
        ensures records { OnOk result (out.new.records ≡ out.old.records) }
    {
        let sender = Sender {
            me,
            boot: self.boot,
        };
        send_polls(&sender, id, &polled, out)?;
        self.round = Some(PollRound::new(id, polled));
        Ok(())
    }

    /// Begins a round: promises its id to itself and polls these sites. The epoch that the site leaves is given back.
    fn begin_round(
        &mut self,
        me: SiteId,
        links: &Links,
        number: u32,
        polled: Links,
        out: &mut Outbox,
    ) -> Result<Option<EpochId>, NoMemory>
        ensures left { IfOk result (λ left. left ≡ epoch_named self.old.epoch) }
        ensures view { OnOk result (self.new ≡ epoch_part (begins_round me links.now number polled (alone self.old)).view) }
        ensures packets { OnOk result (out.new.packets ≡ out.old.packets ++ (begins_round me links.now number polled (alone self.old)).sent) }
        ensures records { OnOk result (out.new.records ≡ out.old.records ++ printed (begins_round me links.now number polled (alone self.old)).told) }
    {
        let id = EpochId {
            number,
            site: me.get(),
            boot: self.boot,
        };
        let left = self.promise(me, id, reached(links), out)?;
        self.poll(me, id, polled, out)?;
        Ok(left)
    }

    /// Begins to form one epoch of all connected sites. The epoch that the site leaves is given back: the other roles leave
    /// it too. `NoNumber` exactly where the greatest number is promised.
    pub fn start_merge(
        &mut self,
        me: SiteId,
        links: &Links,
        out: &mut Outbox,
    ) -> Result<Option<EpochId>, EpochError>
        ensures left { IfOk result (λ left. left ≡ epoch_named self.old.epoch) }
        ensures view { OnOk result (self.new ≡ epoch_part (starts_merge me links.now (alone self.old)).view) }
        ensures packets { OnOk result (out.new.packets ≡ out.old.packets ++ (starts_merge me links.now (alone self.old)).sent) }
        ensures records { OnOk result (out.new.records ≡ out.old.records ++ printed (starts_merge me links.now (alone self.old)).told) }
        ensures spent { IfErr result (λ e. e ≡ NoNumber → self.old.promised.number ≡ 4294967295) }
    {
        let Some(number) = self.next_number() else {
            return Err(EpochError::NoNumber);
        };
        let left = self.begin_round(me, links, number, polled_merge(me, links), out)?;
        Ok(left)
    }

    /// Begins to form an epoch of the members of this one that are connected still; nothing, outside of all epochs. The epoch
    /// that the site leaves is given back. `NoNumber` only where the greatest number is promised.
    pub fn start_part(
        &mut self,
        me: SiteId,
        links: &Links,
        out: &mut Outbox,
    ) -> Result<Option<EpochId>, EpochError>
        ensures left { IfOk result (λ left. left ≡ epoch_named self.old.epoch) }
        ensures view { OnOk result (self.new ≡ epoch_part (starts_part me links.now (alone self.old)).view) }
        ensures packets { OnOk result (out.new.packets ≡ out.old.packets ++ (starts_part me links.now (alone self.old)).sent) }
        ensures records { OnOk result (out.new.records ≡ out.old.records ++ printed (starts_part me links.now (alone self.old)).told) }
        ensures spent { IfErr result (λ e. e ≡ NoNumber → self.old.promised.number ≡ 4294967295) }
    {
        let Some(epoch) = self.epoch() else {
            return Ok(None);
        };
        let Some(number) = self.next_number() else {
            return Err(EpochError::NoNumber);
        };
        let polled = polled_part(me, links, &epoch.members);
        let left = self.begin_round(me, links, number, polled, out)?;
        Ok(left)
    }

    /// A poll has come: the site promises its id, or refuses it with the one that it has promised. The epoch that the site
    /// leaves, if it does, is given back.
    pub fn on_poll(
        &mut self,
        me: SiteId,
        links: &Links,
        header: FormingHeader,
        out: &mut Outbox,
    ) -> Result<Option<EpochId>, NoMemory>
        ensures left { IfOk result (λ left. left ≡ left_at_poll header.id self.old) }
        ensures view { OnOk result (self.new ≡ epoch_part (on_poll me links.now header.from header.from_boot header.id (alone self.old)).view) }
        ensures packets { OnOk result (out.new.packets ≡ out.old.packets ++ (on_poll me links.now header.from header.from_boot header.id (alone self.old)).sent) }
        ensures records { OnOk result (out.new.records ≡ out.old.records ++ printed (on_poll me links.now header.from header.from_boot header.id (alone self.old)).told) }
    {
        match self.promised.on_poll(header.id) {
            PollAnswer::Promise => self.promise_to(me, reached(links), header, out),
            PollAnswer::Again => {
                let reach = reached(links);
                self.answer(me, header, Body::Promise { reach }, out)?;
                Ok(None)
            }
            PollAnswer::Refuse(promised) => {
                self.answer(me, header, Body::Refuse { promised }, out)?;
                Ok(None)
            }
        }
    }

    /// The site promises the id of a poll, and says so to its initiator.
    fn promise_to(
        &mut self,
        me: SiteId,
        reach: Sites,
        header: FormingHeader,
        out: &mut Outbox,
    ) -> Result<Option<EpochId>, NoMemory>
        ensures left { IfOk result (λ left. left ≡ epoch_named self.old.epoch) }
        ensures view { OnOk result (self.new ≡ epoch_part (promises_to me reach header.from header.from_boot header.id (alone self.old)).view) }
        ensures packets { OnOk result (out.new.packets ≡ out.old.packets ++ (promises_to me reach header.from header.from_boot header.id (alone self.old)).sent) }
        ensures records { OnOk result (out.new.records ≡ out.old.records ++ printed (promises_to me reach header.from header.from_boot header.id (alone self.old)).told) }
    {
        let left = self.promise(me, header.id, reach, out)?;
        self.answer(me, header, Body::Promise { reach }, out)?;
        Ok(left)
    }

    /// Sends an answer to the sender of a packet that forms an epoch.
    fn answer(
        &self,
        me: SiteId,
        header: FormingHeader,
        body: Body,
        out: &mut Outbox,
    ) -> Result<(), NoMemory>
        ensures packets { OnOk result (out.new.packets ≡ out.old.packets ++ forming me self.now.boot header.id header.from header.from_boot body ∷ []) }
        ensures records { OnOk result (out.new.records ≡ out.old.records) }
    {
        let sender = Sender {
            me,
            boot: self.boot,
        };
        out.send(sender.forming(header.id, header.from, header.from_boot, body))
    }

    /// The number of an epoch that is formed above the promised one.
    fn next_number(&self) -> Option<u32>
        ensures none { IsNone result ↔ self.now.promised.number ≡ 4294967295 }
        ensures value { IfSome result (λ number. number ≡ self.now.promised.number + 1) }
    {
        next_number(self.promised.id)
    }

    /// Whom a refusal of this id makes the site poll again.
    fn polled_again(&self, id: EpochId) -> Option<Links>
        ensures { result ≡ polled_again id self.now.round }
    {
        match &self.round {
            Some(round) => {
                if same_epoch(round.id(), id) {
                    Some(round.polled())
                } else {
                    None
                }
            }
            None => None,
        }
    }

    /// A poll was refused with this promised id: where it was of the undecided round, its initiator begins again above that
    /// id, with the sites that it hasn't passed over. The epoch that the site leaves is given back. `NoNumber` only where
    /// the promised id has the greatest number.
    pub fn on_refuse(
        &mut self,
        me: SiteId,
        links: &Links,
        id: EpochId,
        promised: EpochId,
        out: &mut Outbox,
    ) -> Result<Option<EpochId>, EpochError>
        ensures left { IfOk result (λ left. left ≡ left_at_refuse id self.old) }
        ensures view { OnOk result (self.new ≡ epoch_part (on_refuse me links.now id promised (alone self.old)).view) }
        ensures packets { OnOk result (out.new.packets ≡ out.old.packets ++ (on_refuse me links.now id promised (alone self.old)).sent) }
        ensures records { OnOk result (out.new.records ≡ out.old.records ++ printed (on_refuse me links.now id promised (alone self.old)).told) }
        ensures spent { IfErr result (λ e. e ≡ NoNumber → promised.number ≡ 4294967295) }
    {
        let Some(polled) = self.polled_again(id) else {
            return Ok(None);
        };
        let Some(number) = next_number(promised) else {
            return Err(EpochError::NoNumber);
        };
        let left = self.begin_round(me, links, number, polled, out)?;
        Ok(left)
    }
}

/// Sends a poll to each of these sites, ascending.
fn send_polls(
    sender: &Sender,
    id: EpochId,
    polled: &Links,
    out: &mut Outbox,
) -> Result<(), NoMemory>
    ensures packets { OnOk result (out.new.packets ≡ out.old.packets ++ map (poll_packet sender.now.me sender.now.boot id polled.now) (polled_sites polled.now)) }
    ensures records { OnOk result (out.new.records ≡ out.old.records) }
{
    for place in 0..SITES {
        let site = site_at(place);
        if is_linked(&polled.boot, site) {
            out.send(sender.poll_packet(id, polled, site))?;
        }
    }
    Ok(())
}
