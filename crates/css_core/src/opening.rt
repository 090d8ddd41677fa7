ghost use Rattle.std.specs.Prelude.{◌≡◌, ◌++◌, None, false, true, IfOk, OnOk};
ghost use Rattle.std.specs.List.{list_any};
ghost use Rattle.std.specs.Option.{option_map};
ghost use Rattle.site_frame.specs.Printed.{printed};
ghost use Rattle.commit_graph.specs.Grants.{grant_refusal};
ghost use Rattle.role_steps.specs.Versions.{stamps_of, kept, file_row};
ghost use Rattle.role_steps.specs.Tables.{row};
ghost use Rattle.role_steps.specs.Opens.{asks_storage, decision, file_decision, decides, granted_at_once, is_open_stage, takes_open, on_opened, open_key, open_row, openers, with_open};
ghost use Rattle.role_steps.specs.Reports.{is_early_of, waits_early, on_open};
ghost use Rattle.css_decision.specs.Decided.{decision_of};
ghost use Rattle.css_opens.specs.Settled.{answer_sent, answer_told, is_asked, settled_row};
ghost use Rattle.css_core.specs.Closed.{settled_table, settled_sent, settled_told};

use crate::css::Css;
use crate::early::is_waiting;
use css_decision::{
    Decision, OpenRequest, asked_entry, denied_entry, grant_on, kept_refusal, make_decision,
    mode_of,
};
use css_opens::{OpenEntry, Settling};
use locus_ids::{FileId, Mode, NoMemory, Refusal, Serial, SiteId};
use role_steps::Early;
use site_frame::SiteFrame;
use wire_messages::{Body, OpenedAs, Opening, Outbox};

impl Css {
    /// An Open of a using site.
    pub fn on_open(
        &mut self,
        frame: &SiteFrame,
        from: SiteId,
        asked: &OpenRequest,
        out: &mut Outbox,
    ) -> Result<(), NoMemory>
        ensures view { OnOk result (self.new ≡ (on_open frame.now from asked.now self.old).view) }
        ensures packets { OnOk result (out.new.packets ≡ out.old.packets ++ (on_open frame.now from asked.now self.old).sent) }
        ensures records { OnOk result (out.new.records ≡ out.old.records ++ printed (on_open frame.now from asked.now self.old).told) }
    {
        if self.started {
            return self.takes_open(frame, from, asked, out);
        }
        if is_waiting(self.early.as_slice(), from, asked.process) {
            return Ok(());
        }
        let body = Body::Open {
            serial: asked.serial,
            call: asked.call,
            process: asked.process,
            request: asked.request,
            file: asked.file,
            how: asked.how,
        };
        self.waits(from, asked.process, body)
    }

    /// A request that comes before the start waits: it is the first one of its site and process.
    pub(crate) fn waits(&mut self, from: SiteId, process: u8, body: Body) -> Result<(), NoMemory>
        requires { list_any (is_early_of from process) self.old.early ≡ false }
        ensures { OnOk result (self.new ≡ waits_early from process body self.old) }
    {
        self.early.push(Early {
            site: from,
            process,
            body,
        })
    }

    /// An Open, where the group has started.
    pub(crate) fn takes_open(
        &mut self,
        frame: &SiteFrame,
        from: SiteId,
        asked: &OpenRequest,
        out: &mut Outbox,
    ) -> Result<(), NoMemory>
        ensures view { OnOk result (self.new ≡ (takes_open frame.now from asked.now self.old).view) }
        ensures packets { OnOk result (out.new.packets ≡ out.old.packets ++ (takes_open frame.now from asked.now self.old).sent) }
        ensures records { OnOk result (out.new.records ≡ out.old.records ++ printed (takes_open frame.now from asked.now self.old).told) }
    {
        let inst = Serial {
            us: from.get(),
            serial: asked.serial,
        };
        if let Some(entry) = self.opens.find(inst) {
            return entry.repeat(frame, out);
        }
        let decision = self.decide(frame, from, asked)?;
        self.carries_out(frame, from, asked, decision, out)
    }

    /// What is decided of an open.
    fn decide(
        &self,
        frame: &SiteFrame,
        from: SiteId,
        asked: &OpenRequest,
    ) -> Result<Decision, NoMemory>
        ensures { IfOk result (λ made. decision_of made ≡ decision frame.now self.now from asked.now asked.now.how) }
    {
        match asked.how {
            Opening::Make { set, kind } => {
                make_decision(self.early.allocator(), frame, self.group, from, set, kind)
            }
            _ => self.file_decision(frame, from, asked),
        }
    }

    /// What is decided of an open of a file that there is.
    fn file_decision(
        &self,
        frame: &SiteFrame,
        from: SiteId,
        asked: &OpenRequest,
    ) -> Result<Decision, NoMemory>
        ensures { IfOk result (λ made. decision_of made ≡ file_decision frame.now self.now from asked.now) }
    {
        if let Some(why) = self.refusal(mode_of(asked.how), asked.file) {
            return Ok(Decision::Denied { why });
        }
        match self.files.find(asked.file.ino) {
            Some(file) => grant_on(self.early.allocator(), frame, from, file, asked.how),
            None => Ok(Decision::Denied {
                why: Refusal::NoStorage,
            }),
        }
    }

    /// Why an open of a file is refused: first the instance that excludes it, then what the kept versions refuse.
    fn refusal(&self, mode: Mode, file: FileId) -> Option<Refusal>
        ensures { result ≡ grant_refusal mode (openers self.now file) (stamps_of (kept (file_row self.now file.ino))) }
    {
        match self.opens.exclusion(mode, file) {
            Some(why) => Some(why),
            None => match self.files.find(file.ino) {
                Some(known) => kept_refusal(mode, known.kept()),
                None => kept_refusal(mode, &[]),
            },
        }
    }

    /// A new open is refused, or its storage site is asked.
    fn carries_out(
        &mut self,
        frame: &SiteFrame,
        from: SiteId,
        asked: &OpenRequest,
        decision: Decision,
        out: &mut Outbox,
    ) -> Result<(), NoMemory>
        requires { open_row self.old (record { us = from; serial = asked.now.serial }) ≡ None }
        ensures view { OnOk result (self.new ≡ (decides frame.now self.old from asked.now (decision_of decision)).view) }
        ensures packets { OnOk result (out.new.packets ≡ out.old.packets ++ (decides frame.now self.old from asked.now (decision_of decision)).sent) }
        ensures records { OnOk result (out.new.records ≡ out.old.records ++ printed (decides frame.now self.old from asked.now (decision_of decision)).told) }
    {
        match decision {
            Decision::Denied { why } => {
                let entry = denied_entry(self.early.allocator(), from, asked, why);
                self.denies(frame, entry, out)
            }
            Decision::Granted { grant } => {
                let entry = asked_entry(from, asked, grant);
                self.asks(frame, entry, out)
            }
        }
    }

    /// A new open is refused: its using site and the trace are told why.
    fn denies(
        &mut self,
        frame: &SiteFrame,
        entry: OpenEntry,
        out: &mut Outbox,
    ) -> Result<(), NoMemory>
        requires { row open_key (open_key entry) self.old.opens ≡ None }
        ensures view { OnOk result (self.new ≡ with_open entry self.old) }
        ensures packets { OnOk result (out.new.packets ≡ out.old.packets ++ answer_sent frame.now entry entry.stage) }
        ensures records { OnOk result (out.new.records ≡ out.old.records ++ printed (answer_told frame.now entry entry.stage)) }
    {
        entry.tells_answer(frame, out)?;
        self.opens.push(entry)
    }

    /// The storage site of a new open is asked.
    fn asks(
        &mut self,
        frame: &SiteFrame,
        entry: OpenEntry,
        out: &mut Outbox,
    ) -> Result<(), NoMemory>
        requires new { row open_key (open_key entry) self.old.opens ≡ None }
        requires open { is_open_stage entry.stage ≡ true }
        ensures view { OnOk result (self.new ≡ with_open entry self.old) }
        ensures packets { OnOk result (out.new.packets ≡ out.old.packets ++ asks_storage frame.now entry) }
        ensures records { OnOk result (out.new.records ≡ out.old.records ++ printed (granted_at_once frame.now entry entry.mode)) }
    {
        entry.asks_storage(frame, out)?;
        entry.notes_at_once(frame, out)?;
        self.opens.push(entry)
    }

    /// What a storage site answers an open.
    #[tactic(auto, using(crate::proofs::Opened::opened_as))]
    pub fn on_opened(
        &mut self,
        frame: &SiteFrame,
        inst: Serial,
        answer: OpenedAs,
        out: &mut Outbox,
    ) -> Result<(), NoMemory>
        ensures view { OnOk result (self.new ≡ (on_opened frame.now inst answer self.old).view) }
        ensures packets { OnOk result (out.new.packets ≡ out.old.packets ++ (on_opened frame.now inst answer self.old).sent) }
        ensures records { OnOk result (out.new.records ≡ out.old.records ++ printed (on_opened frame.now inst answer self.old).told) }
    {
        if !self.opens.is_asked(inst) {
            return Ok(());
        }
        match answer {
            OpenedAs::Open { ino, size } => {
                self.settles(frame, inst, Settling::Grant { ino, size }, out)
            }
            OpenedAs::No { why } => self.settles(frame, inst, Settling::Refuse { why }, out),
        }
    }

    /// The storage site has answered an open that it was asked for.
    #[tactic(auto, using(crate::proofs::Opened::settled_found))]
    fn settles(
        &mut self,
        frame: &SiteFrame,
        inst: Serial,
        settling: Settling,
        out: &mut Outbox,
    ) -> Result<(), NoMemory>
        requires { is_asked (open_row self.old inst) ≡ true }
        ensures view { OnOk result (self.new ≡ settled_table inst settling self.old) }
        ensures packets { OnOk result (out.new.packets ≡ out.old.packets ++ settled_sent frame.now (option_map (settled_row settling) (open_row self.old inst))) }
        ensures records { OnOk result (out.new.records ≡ out.old.records ++ printed (settled_told frame.now (option_map (settled_row settling) (open_row self.old inst)))) }
    {
        self.opens.settle(inst, settling)?;
        self.tells_answer(frame, inst, out)?;
        Ok(())
    }

    /// Tells how an open was answered.
    fn tells_answer(
        &self,
        frame: &SiteFrame,
        inst: Serial,
        out: &mut Outbox,
    ) -> Result<(), NoMemory>
        ensures packets { OnOk result (out.new.packets ≡ out.old.packets ++ settled_sent frame.now (open_row self.now inst)) }
        ensures records { OnOk result (out.new.records ≡ out.old.records ++ printed (settled_told frame.now (open_row self.now inst))) }
    {
        match self.opens.find(inst) {
            Some(entry) => entry.tells_answer(frame, out),
            None => Ok(()),
        }
    }
}
