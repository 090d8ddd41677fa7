ghost use Rattle.std.specs.Prelude.{◌≡◌, ◌++◌, ◌∷◌, [], IfOk, OnOk};
ghost use Rattle.site_frame.specs.Printed.{printed};
ghost use Rattle.role_steps.specs.Tables.{row};
ghost use Rattle.role_steps.specs.Versions.{file_row};
ghost use Rattle.role_steps.specs.Views.{process_key};
ghost use Rattle.role_steps.specs.Looks.{look_key, takes_look, service, new_look, last_look, letter, look_record};
ghost use Rattle.role_steps.specs.Reports.{on_look};
ghost use Rattle.css_core.specs.Lettered.{turn_after, last_sent};

use crate::LookRequest;
use crate::css::Css;
use crate::early::is_waiting;
use crate::looks::{LookRow, Turn, look_row, note_look, unknown_row};
use crate::service::{Service, service_on};
use keyed_tables::process_key;
use locus_ids::{NoMemory, Refusal, SiteId};
use site_frame::SiteFrame;
use wire_messages::{Body, Outbox};

impl Css {
    /// A Look of a using site.
    pub fn on_look(
        &mut self,
        frame: &SiteFrame,
        from: SiteId,
        look: &LookRequest,
        out: &mut Outbox,
    ) -> Result<(), NoMemory>
        ensures view { OnOk result (self.new ≡ (on_look frame.now from look.now self.old).view) }
        ensures packets { OnOk result (out.new.packets ≡ out.old.packets ++ (on_look frame.now from look.now self.old).sent) }
        ensures records { OnOk result (out.new.records ≡ out.old.records ++ printed (on_look frame.now from look.now self.old).told) }
    {
        if self.started {
            return self.takes_look(frame, from, look, out);
        }
        if is_waiting(self.early.as_slice(), from, look.process) {
            return Ok(());
        }
        let body = Body::Look {
            call: look.call,
            process: look.process,
            request: look.request,
            take: look.take,
            file: look.file,
            what: look.what.copy()?,
        };
        self.waits(from, look.process, body)
    }

    /// A Look, where the group has started: a lower one than the last of its process is ignored, the same one is answered as
    /// before, a higher one is taken.
    #[tactic(auto, using(crate::proofs::Turns::taken_as))]
    pub(crate) fn takes_look(
        &mut self,
        frame: &SiteFrame,
        from: SiteId,
        look: &LookRequest,
        out: &mut Outbox,
    ) -> Result<(), NoMemory>
        ensures view { OnOk result (self.new ≡ (takes_look frame.now from look.now self.old).view) }
        ensures packets { OnOk result (out.new.packets ≡ out.old.packets ++ (takes_look frame.now from look.now self.old).sent) }
        ensures records { OnOk result (out.new.records ≡ out.old.records ++ printed (takes_look frame.now from look.now self.old).told) }
    {
        match self.turn(from, look) {
            Turn::Lower => Ok(()),
            Turn::Same => self.repeats_look(frame, from, look, out),
            Turn::Higher => self.new_look(frame, from, look, out),
        }
    }

    /// How a look stands to the last one of its process.
    fn turn(&self, from: SiteId, look: &LookRequest) -> Turn
        ensures { result ≡ turn_after look.now (row look_key (process_key from look.now.process) self.now.looks) }
    {
        match self.looks.find(process_key(from, look.process)) {
            Some(last) => last.turn(look),
            None => Turn::Higher,
        }
    }

    /// The last look of a process is answered as before.
    fn repeats_look(
        &self,
        frame: &SiteFrame,
        from: SiteId,
        look: &LookRequest,
        out: &mut Outbox,
    ) -> Result<(), NoMemory>
        ensures packets { OnOk result (out.new.packets ≡ out.old.packets ++ last_sent frame.now (row look_key (process_key from look.now.process) self.now.looks)) }
        ensures records { OnOk result (out.new.records ≡ out.old.records) }
    {
        match self.looks.find(process_key(from, look.process)) {
            Some(last) => last.send(frame, out),
            None => Ok(()),
        }
    }

    /// A look that is later than the last one of its process.
    fn new_look(
        &mut self,
        frame: &SiteFrame,
        from: SiteId,
        look: &LookRequest,
        out: &mut Outbox,
    ) -> Result<(), NoMemory>
        ensures view { OnOk result (self.new ≡ (new_look frame.now from look.now (file_row self.old look.now.file.ino) self.old).view) }
        ensures packets { OnOk result (out.new.packets ≡ out.old.packets ++ (new_look frame.now from look.now (file_row self.old look.now.file.ino) self.old).sent) }
        ensures records { OnOk result (out.new.records ≡ out.old.records ++ printed (new_look frame.now from look.now (file_row self.old look.now.file.ino) self.old).told) }
    {
        let row = self.answers_look(frame, from, look, out)?;
        row.send(frame, out)?;
        self.looks.put(row)
    }

    /// The row of a new look, of which it is told what it is served.
    fn answers_look(
        &self,
        frame: &SiteFrame,
        from: SiteId,
        look: &LookRequest,
        out: &mut Outbox,
    ) -> Result<LookRow, NoMemory>
        ensures row { IfOk result (λ made. made ≡ last_look from look.now (letter from look.now (file_row self.now look.now.file.ino) (service frame.now from look.now.what (file_row self.now look.now.file.ino)))) }
        ensures packets { OnOk result (out.new.packets ≡ out.old.packets) }
        ensures records { OnOk result (out.new.records ≡ out.old.records ++ printed (look_record frame.now from look.now (service frame.now from look.now.what (file_row self.now look.now.file.ino)) ∷ [])) }
    {
        match self.files.find(look.file.ino) {
            Some(file) => {
                let service = service_on(frame, from, file, &look.what)?;
                note_look(frame, from, look, &service, out)?;
                look_row(from, look, Some(file.kind()), &service)
            }
            None => {
                let service = Service::Denied {
                    why: Refusal::NoStorage,
                };
                note_look(frame, from, look, &service, out)?;
                Ok(unknown_row(from, look))
            }
        }
    }
}
