// How a site takes part in forming an epoch.
ghost use Rattle.std.specs.Prelude.{◌≡◌, IfErr, OnOk};
ghost use Rattle.merge_protocol.specs.declared.errors.EpochError.TheVariants.{NoNumber};
ghost use Rattle.role_steps.specs.Epochs.{on_install, on_joined, on_poll, on_promise, on_refuse, starts_merge, starts_part};
ghost use Rattle.wire_messages.specs.Outboxes.{Outgoing};
ghost use Rattle.site_node.specs.Views.{Works};

use crate::SiteNode;
use locus_ids::{EpochId, Links, Members, NoMemory, SiteId, Sites};
use merge_protocol::{
    EpochError, FormingHeader, InstallAnswer, joining_by_parts, leaving_by_parts, quiet_by_parts,
};
use role_steps::InEpoch;
use wire_messages::Outbox;

impl SiteNode {
    pub(crate) fn take_poll(
        &mut self,
        links: &Links,
        header: FormingHeader,
        out: &mut Outbox,
    ) -> Result<(), NoMemory>
        ensures { OnOk result (Works (on_poll self.old.frame.me links.now header.from header.from_boot header.id) self.old self.new out.old out.new) }
    {
        leaving_by_parts();
        let me = self.site();
        let left = self.epochs.on_poll(me, links, header, out)?;
        self.leave_rest(left, out)?;
        Ok(())
    }

    pub(crate) fn take_promise(&mut self, header: FormingHeader, reach: Sites)
        ensures { (out : Outgoing) → Works (on_promise header.from header.from_boot header.id reach) self.old self.new out out }
    {
        quiet_by_parts();
        self.epochs.on_promise(header, reach);
    }

    pub(crate) fn take_joined(&mut self, from: SiteId, id: EpochId)
        ensures { (out : Outgoing) → Works (on_joined from id) self.old self.new out out }
    {
        quiet_by_parts();
        self.epochs.on_joined(from, id);
    }

    pub(crate) fn take_refuse(
        &mut self,
        links: &Links,
        id: EpochId,
        promised: EpochId,
        out: &mut Outbox,
    ) -> Result<(), EpochError>
        ensures works { OnOk result (Works (on_refuse self.old.frame.me links.now id promised) self.old self.new out.old out.new) }
        ensures spent { IfErr result (λ e. e ≡ NoNumber → promised.number ≡ 4294967295) }
    {
        leaving_by_parts();
        let me = self.site();
        let left = self.epochs.on_refuse(me, links, id, promised, out)?;
        self.leave_rest(left, out)?;
        Ok(())
    }

    pub(crate) fn take_install(
        &mut self,
        header: &FormingHeader,
        members: &Members,
        out: &mut Outbox,
    ) -> Result<(), NoMemory>
        ensures { OnOk result (Works (on_install self.old.frame.config self.old.frame.me header.now.from header.now.from_boot header.now.id members.now) self.old self.new out.old out.new) }
    {
        joining_by_parts();
        let me = self.site();
        match self.epochs.on_install(me, *header, members) {
            InstallAnswer::Joins => {
                self.join(installed(header.id, members), out)?;
                out.send(self.epochs.joined_packet(me, *header))?;
                Ok(())
            }
            InstallAnswer::Again => {
                out.send(self.epochs.joined_packet(me, *header))?;
                Ok(())
            }
            InstallAnswer::Nothing => Ok(()),
        }
    }

    /// The site begins to form an epoch of the members of its own that it reaches.
    pub(crate) fn start_part(&mut self, links: &Links, out: &mut Outbox) -> Result<(), EpochError>
        ensures works { OnOk result (Works (starts_part self.old.frame.me links.now) self.old self.new out.old out.new) }
        ensures spent { IfErr result (λ e. e ≡ NoNumber → self.old.epochs.promised.number ≡ 4294967295) }
    {
        leaving_by_parts();
        let me = self.site();
        let left = self.epochs.start_part(me, links, out)?;
        self.leave_rest(left, out)?;
        Ok(())
    }

    /// The site begins to form an epoch of all sites that it reaches.
    pub(crate) fn start_merge(&mut self, links: &Links, out: &mut Outbox) -> Result<(), EpochError>
        ensures works { OnOk result (Works (starts_merge self.old.frame.me links.now) self.old self.new out.old out.new) }
        ensures spent { IfErr result (λ e. e ≡ NoNumber → self.old.epochs.promised.number ≡ 4294967295) }
    {
        leaving_by_parts();
        let me = self.site();
        let left = self.epochs.start_merge(me, links, out)?;
        self.leave_rest(left, out)?;
        Ok(())
    }
}

fn installed(id: EpochId, members: &Members) -> InEpoch
    ensures { result ≡ record { id = id; members = members.now } }
{
    InEpoch {
        id,
        members: *members,
    }
}
