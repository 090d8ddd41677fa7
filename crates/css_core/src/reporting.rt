ghost use Rattle.std.specs.Prelude.{◌≡◌, ◌++◌, IfOk, OnOk};
ghost use Rattle.site_frame.specs.Printed.{printed};
ghost use Rattle.role_steps.specs.Reports.{takes_early, takes_all_early, with_all_reported, on_report};
ghost use Rattle.css_core.specs.Started.{all_in, started_by, starts_where, counted, reported_by};

use crate::LookRequest;
use crate::css::Css;
use crate::early::{brought, has_all};
use css_decision::OpenRequest;
use css_decision::css_notices::{members_of, notify_all};
use locus_ids::{NoMemory, SiteId};
use role_steps::{Earlies, Early};
use site_frame::SiteFrame;
use std::mem;
use trace_book::Record;
use wire_messages::{Body, Outbox, ReportedCopy};

impl Css {
    /// The report of a member: each one is answered, and the first counts.
    pub fn on_report(
        &mut self,
        frame: &SiteFrame,
        from: SiteId,
        copies: &[ReportedCopy],
        out: &mut Outbox,
    ) -> Result<(), NoMemory>
        ensures view { OnOk result (self.new ≡ (on_report frame.now from copies.now self.old).view) }
        ensures packets { OnOk result (out.new.packets ≡ out.old.packets ++ (on_report frame.now from copies.now self.old).sent) }
        ensures records { OnOk result (out.new.records ≡ out.old.records ++ printed (on_report frame.now from copies.now self.old).told) }
    {
        self.answers_report(frame, from, copies, out)
    }

    /// A report is answered, and counts where it is the member's first.
    fn answers_report(
        &mut self,
        frame: &SiteFrame,
        from: SiteId,
        copies: &[ReportedCopy],
        out: &mut Outbox,
    ) -> Result<(), NoMemory>
        ensures view { OnOk result (self.new ≡ (reported_by frame.now from copies.now self.old).view) }
        ensures packets { OnOk result (out.new.packets ≡ out.old.packets ++ (reported_by frame.now from copies.now self.old).sent) }
        ensures records { OnOk result (out.new.records ≡ out.old.records ++ printed (reported_by frame.now from copies.now self.old).told) }
    {
        out.send(frame.packet(from, Body::ReportOk { group: self.group }))?;
        self.counts_report(frame, from, copies, out)
    }

    /// The first report of a member counts.
    #[tactic(auto, unfolding(crate::specs::Started::counted))]
    fn counts_report(
        &mut self,
        frame: &SiteFrame,
        from: SiteId,
        copies: &[ReportedCopy],
        out: &mut Outbox,
    ) -> Result<(), NoMemory>
        ensures view { OnOk result (self.new ≡ (counted frame.now from copies.now self.old).view) }
        ensures packets { OnOk result (out.new.packets ≡ out.old.packets ++ (counted frame.now from copies.now self.old).sent) }
        ensures records { OnOk result (out.new.records ≡ out.old.records ++ printed (counted frame.now from copies.now self.old).told) }
    {
        if self.reported.has(from) {
            return Ok(());
        }
        self.reported = self.reported.with(from);
        self.files.expect(&frame.members);
        self.takes_report(from, copies)?;
        self.starts_if(frame, out)
    }

    /// A member's copies become known.
    fn takes_report(&mut self, from: SiteId, copies: &[ReportedCopy]) -> Result<(), NoMemory>
        ensures { OnOk result (self.new ≡ with_all_reported from copies.now self.old) }
    {
        let [first, later @ ..] = copies else {
            return Ok(());
        };
        self.files.report(from, first)?;
        self.takes_report(from, later)
    }

    /// The group starts where each member that has a pack of it has reported.
    #[tactic(auto, unfolding(crate::specs::Started::starts_where))]
    fn starts_if(&mut self, frame: &SiteFrame, out: &mut Outbox) -> Result<(), NoMemory>
        ensures view { OnOk result (self.new ≡ (starts_where frame.now self.old).view) }
        ensures packets { OnOk result (out.new.packets ≡ out.old.packets ++ (starts_where frame.now self.old).sent) }
        ensures records { OnOk result (out.new.records ≡ out.old.records ++ printed (starts_where frame.now self.old).told) }
    {
        if self.have_all_reported(frame)? {
            self.starts(frame, out)
        } else {
            Ok(())
        }
    }

    /// Each member that has a pack of the group has reported.
    #[tactic(auto, unfolding(crate::specs::Started::all_in))]
    fn have_all_reported(&self, frame: &SiteFrame) -> Result<bool, NoMemory>
        ensures { IfOk result (λ all. all ≡ all_in frame.now self.now) }
    {
        let packs = frame.pack_sites(self.group);
        let members = members_of(self.early.allocator(), frame, packs)?;
        Ok(has_all(self.reported, members.as_slice()))
    }

    /// The group starts: lagging members are notified, and the requests that waited are served in the order in which they
    /// came.
    #[tactic(auto, unfolding(crate::specs::Started::started_by))]
    fn starts(&mut self, frame: &SiteFrame, out: &mut Outbox) -> Result<(), NoMemory>
        ensures view { OnOk result (self.new ≡ (started_by frame.now self.old).view) }
        ensures packets { OnOk result (out.new.packets ≡ out.old.packets ++ (started_by frame.now self.old).sent) }
        ensures records { OnOk result (out.new.records ≡ out.old.records ++ printed (started_by frame.now self.old).told) }
    {
        let alloc = self.early.allocator();
        out.note(Record::Start {
            epoch: frame.epoch,
            group: self.group,
            copies: brought(alloc, self.files.as_slice())?,
        })?;
        notify_all(alloc, frame, self.group, self.files.as_slice(), out)?;
        let early = mem::replace(&mut self.early, Earlies::new(alloc));
        self.started = true;
        self.takes_all_early(frame, early.as_slice(), out)
    }

    /// The requests that waited.
    #[tactic(auto, using(site_frame::proofs::Printing::printed_append))]
    fn takes_all_early(
        &mut self,
        frame: &SiteFrame,
        early: &[Early],
        out: &mut Outbox,
    ) -> Result<(), NoMemory>
        ensures view { OnOk result (self.new ≡ (takes_all_early frame.now early.now self.old).view) }
        ensures packets { OnOk result (out.new.packets ≡ out.old.packets ++ (takes_all_early frame.now early.now self.old).sent) }
        ensures records { OnOk result (out.new.records ≡ out.old.records ++ printed (takes_all_early frame.now early.now self.old).told) }
    {
        let [first, later @ ..] = early else {
            return Ok(());
        };
        self.takes_early(frame, first.site, &first.body, out)?;
        self.takes_all_early(frame, later, out)
    }

    /// A request that waited.
    fn takes_early(
        &mut self,
        frame: &SiteFrame,
        from: SiteId,
        body: &Body,
        out: &mut Outbox,
    ) -> Result<(), NoMemory>
        ensures view { OnOk result (self.new ≡ (takes_early frame.now from body.now self.old).view) }
        ensures packets { OnOk result (out.new.packets ≡ out.old.packets ++ (takes_early frame.now from body.now self.old).sent) }
        ensures records { OnOk result (out.new.records ≡ out.old.records ++ printed (takes_early frame.now from body.now self.old).told) }
    {
        match body {
            Body::Open {
                serial,
                call,
                process,
                request,
                file,
                how,
            } => {
                let asked = OpenRequest {
                    serial: *serial,
                    call: *call,
                    process: *process,
                    request: *request,
                    file: *file,
                    how: *how,
                };
                self.takes_open(frame, from, &asked, out)
            }
            Body::Look {
                call,
                process,
                request,
                take,
                file,
                what,
            } => {
                let look = LookRequest {
                    call: *call,
                    process: *process,
                    request: *request,
                    take: *take,
                    file: *file,
                    what: what.copy()?,
                };
                self.takes_look(frame, from, &look, out)
            }
            _ => Ok(()),
        }
    }
}
