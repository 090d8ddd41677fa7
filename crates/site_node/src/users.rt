// What comes to the using site, and calls.
ghost use Rattle.std.specs.Prelude.{◌≡◌, ℕ, List, IfOk, OnOk};
ghost use Rattle.role_steps.specs.Mends.{kept_stamps};
ghost use Rattle.role_steps.specs.Using.{kept_for};
ghost use Rattle.the_run.specs.Steps.{epoch_id, takes_call};
ghost use Rattle.site_parts.specs.Framing.{calling};
ghost use Rattle.site_node.specs.Views.{Works, view_of};
ghost use Rattle.site_node.specs.Roles.{opened_at, role_takes};
ghost use Rattle.site_parts.specs.declared.roles.Role.TheVariants as role;

use crate::SiteNode;
use locus_ids::{EpochId, FileId, NoMemory, SiteId, Stamps};
use site_parts::site_tables::stamps_kept;
use site_parts::{enter, stay_outside};
use trace_book::Call;
use wire_messages::{Body, Granted, Outbox};

impl SiteNode {
    /// A process calls.
    pub(crate) fn take_call(
        &mut self,
        process: u8,
        words: Call,
        out: &mut Outbox,
    ) -> Result<(), NoMemory>
        ensures { OnOk result (Works (takes_call self.old.frame.config self.old.frame.me process words) self.old self.new out.old out.new) }
    {
        let now = self.enter_for_call();
        self.users.call(&self.frame, now, process, words, out)?;
        Ok(())
    }

    /// The frame is that of the epoch that the site is in, which is given, or that of no epoch.
    fn enter_for_call(&mut self) -> Option<EpochId>
        ensures frame { self.new ≡ record self.old { frame = calling self.old.frame.config self.old.frame.me self.old.epochs.boot self.old.epochs.epoch } }
        ensures epoch { result ≡ epoch_id self.old.epochs.epoch }
    {
        let boot = self.epochs.boot();
        match self.epochs.epoch() {
            None => {
                stay_outside(&mut self.frame, boot);
                None
            }
            Some(epoch) => {
                enter(&mut self.frame, boot, &epoch);
                Some(epoch.id)
            }
        }
    }

    /// Takes what a member sent, where it is for the using site.
    pub(crate) fn take_at_users(
        &mut self,
        from: SiteId,
        body: Body,
        out: &mut Outbox,
    ) -> Result<(), NoMemory>
        ensures { OnOk result (Works (role_takes role.Users self.old.frame from body) self.old self.new out.old out.new) }
    {
        match body {
            Body::OpenDone { serial, answer } => {
                self.take_open_done(serial, answer, out)?;
                Ok(())
            }
            Body::OpDone {
                serial,
                number,
                outcome,
            } => {
                self.users
                    .on_op_done(&self.frame, serial, number, outcome, out)?;
                Ok(())
            }
            Body::AsHeld { serial, number, .. } => {
                self.users.on_as_held(&self.frame, serial, number, out)?;
                Ok(())
            }
            Body::CloseDone { serial, answer } => {
                self.users.on_close_done(&self.frame, serial, answer, out)?;
                Ok(())
            }
            Body::LookDone {
                call,
                request,
                take,
                answer,
            } => {
                self.users
                    .on_look_done(&self.frame, call, request, take, answer, out)?;
                Ok(())
            }
            _ => {
                drop(body);
                Ok(())
            }
        }
    }

    /// An open is answered; that of a mend brings the stamps of the kept versions.
    fn take_open_done(
        &mut self,
        serial: u32,
        answer: Granted,
        out: &mut Outbox,
    ) -> Result<(), NoMemory>
        ensures { OnOk result (Works (opened_at self.old.frame serial answer) self.old self.new out.old out.new) }
    {
        let kept = self.kept_for(self.users.mend_opening(serial))?;
        self.users
            .on_open_done(&self.frame, kept, serial, answer, out)?;
        Ok(())
    }

    /// The stamps of the kept versions of a directory that is mended; none for no directory.
    fn kept_for(&self, file: Option<FileId>) -> Result<Stamps, NoMemory>
        ensures { IfOk result (λ made. (image : List ℕ) → kept_for (kept_stamps (view_of self.now image)) file ≡ made) }
    {
        match file {
            Some(file) => stamps_kept(self.alloc, &self.tables, file),
            None => Ok(Stamps::new(self.alloc)),
        }
    }
}
