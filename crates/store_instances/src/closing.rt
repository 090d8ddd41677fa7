//! The close of one instance.

ghost use Rattle.std.specs.Prelude.{◌≡◌, ◌++◌, ℕ, List, Some, length, true, Err, IfOk, OnOk, OnErr};
ghost use Rattle.role_steps.specs.declared.instances.Stage.TheVariants as Stage;
ghost use Rattle.role_steps.specs.Storage.{content_of, close_done, closed_again, closed_packets, closes, ends_at, instance_key, is_open, made_version, next_stamp, next_vector, on_close_at, shut};
ghost use Rattle.role_steps.specs.Views.{Store};
ghost use Rattle.site_packs.specs.Copies.{copies_on};
ghost use Rattle.site_packs.specs.Packs.{AreShown, PacksState, SamePlaces, Stand, copy_at, groups_of};
ghost use Rattle.store_instances.specs.Stores.{IsRow, RowGives, StoreState, again_packets, commits_and_shuts, store_of};
ghost use Rattle.store_instances.specs.Fitting.{CanClose, CanCommit, CanStore};
ghost use Rattle.store_instances.specs.Writes.{Writes, write_as};

use crate::{StoreFault, StoreInstance};
use disk_model::Disk;
use locus_ids::sizes::SITES;
use locus_ids::{FileId, NoMemory, Refusal};
use role_steps::{Stage, Step};
use site_frame::SiteFrame;
use site_packs::SitePacks;
use version_vector::Vector;
use wire_messages::{Body, CloseAnswer, MadeVersion, Outbox};

impl StoreInstance {
    /// A close. A repeated one sends again what the first one sent, while the synchronization site hasn't answered, and the
    /// answer afterwards. What it committed, if anything, is the answer.
    pub fn on_close<D: Disk>(
        &mut self,
        frame: &SiteFrame,
        packs: &mut SitePacks,
        disk: &mut D,
        out: &mut Outbox,
    ) -> Result<Option<Step>, StoreFault>
        requires { Stand packs.old (D.moment disk.old) }
        ensures gives { IfOk result (λ made. (r : StoreState) → IsRow self.old r.instances → RowGives (on_close_at frame.now self.old self.old.stage (store_of r packs.old (D.moment disk.old).seen)) r made self.new packs.new (D.moment disk.new).seen out.old out.new) }
        ensures key { instance_key self.new ≡ instance_key self.old }
        ensures stays { is_open self.new.stage ≡ is_open self.old.stage }
        ensures stands { OnOk result (Stand packs.new (D.moment disk.new)) }
        ensures places { OnOk result (SamePlaces packs.old packs.new) }
        ensures disk { (s : Store) → Writes (on_close_at frame.now self.old self.old.stage s).written packs.old (D.moment disk.old) (D.moment disk.new) out.old out.new result }
        ensures unfit { result ≡ Err StoreFault.Unfit → CanClose frame.now (groups_of packs.old) (copies_on (groups_of packs.old) (D.moment disk.old).seen) self.old self.old.stage → ⊥ }
    {
        if self.is_running() {
            let made = self.close(frame, packs, disk, out)?;
            return Ok(made);
        }
        self.close_again(frame, out)?;
        Ok(None)
    }

    fn close_again(&self, frame: &SiteFrame, out: &mut Outbox) -> Result<(), NoMemory>
        ensures packets { OnOk result (out.new.packets ≡ out.old.packets ++ again_packets frame.now self.now self.now.stage) }
        ensures records { OnOk result (out.new.records ≡ out.old.records) }
    {
        match &self.stage {
            Stage::Running => Ok(()),
            Stage::Closing { made, answer: _ } => self.send_closed(frame, made, out),
            Stage::Closed { answer } => self.send_close_done(frame, copied(answer)?, out),
        }
    }

    /// Sends the close to the synchronization site again, where it has not answered.
    pub fn repeat(&self, frame: &SiteFrame, out: &mut Outbox) -> Result<(), NoMemory>
        ensures packets { OnOk result (out.new.packets ≡ out.old.packets ++ closed_again frame.now self.now self.now.stage) }
        ensures records { OnOk result (out.new.records ≡ out.old.records) }
    {
        match &self.stage {
            Stage::Running => Ok(()),
            Stage::Closing { made, answer: _ } => self.send_closed(frame, made, out),
            Stage::Closed { answer: _ } => Ok(()),
        }
    }

    fn send_closed(
        &self,
        frame: &SiteFrame,
        made: &Option<MadeVersion>,
        out: &mut Outbox,
    ) -> Result<(), NoMemory>
        ensures packets { OnOk result (out.new.packets ≡ out.old.packets ++ closed_packets frame.now self.now made.now) }
        ensures records { OnOk result (out.new.records ≡ out.old.records) }
    {
        let body = Body::Closed {
            inst: self.inst(),
            made: *made,
        };
        frame.send_to_sync(self.file.group, body, out)?;
        Ok(())
    }

    fn send_close_done(
        &self,
        frame: &SiteFrame,
        answer: CloseAnswer,
        out: &mut Outbox,
    ) -> Result<(), NoMemory>
        ensures packets { OnOk result (out.new.packets ≡ out.old.packets ++ close_done frame.now self.now answer) }
        ensures records { OnOk result (out.new.records ≡ out.old.records) }
    {
        let body = Body::CloseDone {
            serial: self.serial,
            answer,
        };
        out.send(frame.packet(self.us, body))
    }

    /// What is owed is committed first.
    fn close<D: Disk>(
        &mut self,
        frame: &SiteFrame,
        packs: &mut SitePacks,
        disk: &mut D,
        out: &mut Outbox,
    ) -> Result<Option<Step>, StoreFault>
        requires { Stand packs.old (D.moment disk.old) }
        ensures gives { IfOk result (λ made. (r : StoreState) → IsRow self.old r.instances → RowGives (closes frame.now self.old (store_of r packs.old (D.moment disk.old).seen)) r made self.new packs.new (D.moment disk.new).seen out.old out.new) }
        ensures key { instance_key self.new ≡ instance_key self.old }
        ensures stays { is_open self.old.stage ≡ true → is_open self.new.stage ≡ true }
        ensures stands { OnOk result (Stand packs.new (D.moment disk.new)) }
        ensures places { OnOk result (SamePlaces packs.old packs.new) }
        ensures disk { (s : Store) → Writes (closes frame.now self.old s).written packs.old (D.moment disk.old) (D.moment disk.new) out.old out.new result }
        ensures unfit { result ≡ Err StoreFault.Unfit → CanCommit frame.now (groups_of packs.old) (copies_on (groups_of packs.old) (D.moment disk.old).seen) self.old → ⊥ }
    {
        if !self.owes() {
            self.shut(frame, packs, CloseAnswer::Nothing, out)?;
            return Ok(None);
        }
        match self.next_vector(frame) {
            None => {
                let why = Refusal::Spent;
                self.shut(frame, packs, CloseAnswer::No { why }, out)?;
                Ok(None)
            }
            Some(vector) => {
                let made = self.close_owed(frame, packs, disk, &vector, out)?;
                Ok(made)
            }
        }
    }

    /// The version of this vector is committed, and then the close told.
    fn close_owed<D: Disk>(
        &mut self,
        frame: &SiteFrame,
        packs: &mut SitePacks,
        disk: &mut D,
        vector: &Vector<SITES>,
        out: &mut Outbox,
    ) -> Result<Option<Step>, StoreFault>
        requires { Stand packs.old (D.moment disk.old) }
        ensures gives { IfOk result (λ made. (r : StoreState) → vector.now ≡ next_vector frame.now self.old → RowGives (commits_and_shuts frame.now self.old (store_of r packs.old (D.moment disk.old).seen)) r made self.new packs.new (D.moment disk.new).seen out.old out.new) }
        ensures key { instance_key self.new ≡ instance_key self.old }
        ensures stays { is_open self.old.stage ≡ true → is_open self.new.stage ≡ true }
        ensures stands { OnOk result (Stand packs.new (D.moment disk.new)) }
        ensures places { OnOk result (SamePlaces packs.old packs.new) }
        ensures disk { Writes (Some (write_as frame.now self.old vector.now)) packs.old (D.moment disk.old) (D.moment disk.new) out.old out.new result }
        ensures unfit { result ≡ Err StoreFault.Unfit → CanStore (groups_of packs.old) (copies_on (groups_of packs.old) (D.moment disk.old).seen) self.old vector.now (next_stamp frame.now vector.now) → ⊥ }
    {
        let step = self.commit(frame, packs, disk, vector, out)?;
        let stamp = step.after;
        self.shut(frame, packs, CloseAnswer::Made { stamp }, out)?;
        Ok(Some(step))
    }

    /// The close is told to the synchronization site.
    fn shut(
        &mut self,
        frame: &SiteFrame,
        packs: &SitePacks,
        answer: CloseAnswer,
        out: &mut Outbox,
    ) -> Result<(), NoMemory>
        ensures row { OnOk result ((image : List ℕ) → AreShown packs.now.packs image → self.new ≡ shut self.old (made_version self.old (copy_at packs.now image self.old.file) self.old.work.committed) answer) }
        ensures packets { OnOk result ((image : List ℕ) → AreShown packs.now.packs image → out.new.packets ≡ out.old.packets ++ closed_packets frame.now self.old (made_version self.old (copy_at packs.now image self.old.file) self.old.work.committed)) }
        ensures records { OnOk result (out.new.records ≡ out.old.records) }
        ensures key { instance_key self.new ≡ instance_key self.old }
        ensures stays { is_open self.old.stage ≡ true → is_open self.new.stage ≡ true }
    {
        let made = self.made_version(packs);
        self.send_closed(frame, &made, out)?;
        self.work.owes = false;
        self.work.changed.clear();
        self.stage = Stage::Closing { made, answer };
        Ok(())
    }

    /// The version that it committed last, if any.
    fn made_version(&self, packs: &SitePacks) -> Option<MadeVersion>
        ensures { (image : List ℕ) → AreShown packs.now.packs image → result ≡ made_version self.now (copy_at packs.now image self.now.file) self.now.work.committed }
    {
        let Some(stamp) = self.work.committed else {
            return None;
        };
        Some(MadeVersion {
            stamp,
            vector: self.vector,
            size: size_of(packs, self.file),
        })
    }

    /// The synchronization site has answered the close.
    pub fn on_closed_ok(&mut self, frame: &SiteFrame, out: &mut Outbox) -> Result<(), NoMemory>
        ensures gives { OnOk result ((r : StoreState) (p : PacksState) (image : List ℕ) → IsRow self.old r.instances → RowGives (ends_at frame.now self.old self.old.stage (store_of r p image)) r None self.new p image out.old out.new) }
        ensures key { instance_key self.new ≡ instance_key self.old }
        ensures stays { is_open self.new.stage ≡ true → is_open self.old.stage ≡ true }
        ensures kept { OnErr result (self.new.stage ≡ self.old.stage) }
    {
        match &self.stage {
            Stage::Running => Ok(()),
            Stage::Closed { answer: _ } => Ok(()),
            Stage::Closing { made: _, answer } => {
                let answer = copied(answer)?;
                self.end(frame, answer, out)?;
                Ok(())
            }
        }
    }

    fn end(
        &mut self,
        frame: &SiteFrame,
        answer: CloseAnswer,
        out: &mut Outbox,
    ) -> Result<(), NoMemory>
        ensures row { OnOk result (self.new ≡ record self.old { stage = Stage.Closed answer }) }
        ensures packets { OnOk result (out.new.packets ≡ out.old.packets ++ close_done frame.now self.old answer) }
        ensures records { OnOk result (out.new.records ≡ out.old.records) }
        ensures key { instance_key self.new ≡ instance_key self.old }
        ensures kept { OnErr result (self.new.stage ≡ self.old.stage) }
    {
        self.send_close_done(frame, copied(&answer)?, out)?;
        self.stage = Stage::Closed { answer };
        Ok(())
    }
}

/// The size of the copy of a file, in bytes; 0 where there is none.
fn size_of(packs: &SitePacks, file: FileId) -> u32
    ensures { (image : List ℕ) → AreShown packs.now.packs image → result ≡ length (content_of (copy_at packs.now image file)) }
{
    match packs.head(file) {
        Some(copy) => copy.size,
        None => 0,
    }
}

fn copied(answer: &CloseAnswer) -> Result<CloseAnswer, NoMemory>
    ensures { IfOk result (λ made. made ≡ answer.now) }
{
    match answer {
        CloseAnswer::Nothing => Ok(CloseAnswer::Nothing),
        CloseAnswer::Made { stamp } => Ok(CloseAnswer::Made { stamp: *stamp }),
        CloseAnswer::No { why } => {
            let why = why.copy()?;
            Ok(CloseAnswer::No { why })
        }
    }
}
