// An adoption is tried.
ghost use Rattle.std.specs.Prelude.{◌≡◌, ◌≢◌, true, [], Err, IfErr, OnOk};
ghost use Rattle.std.specs.Option.{unwrap_or};
ghost use Rattle.site_packs.specs.Packs.{Stand, groups_of};
ghost use Rattle.the_run.specs.Steps.{adopts_in, tries_at};
ghost use Rattle.role_steps.specs.Pulling.{is_complete};
ghost use Rattle.propagation.specs.Sized.{IsSized};
ghost use Rattle.site_node.specs.Views.{Moves, view_of};
ghost use Rattle.site_node.specs.Writing.{EventWrites};
ghost use Rattle.site_node.specs.Adopting.{adopted_now};
ghost use Rattle.site_node.specs.Fitting.{CanAdopt, CanKeep};
ghost use Rattle.site_node.specs.Taking.{is_tried};
ghost use Rattle.site_parts.specs.declared.fault.NodeFault.TheVariants.{NoNumber, Unfit};
ghost use Rattle.wire_messages.specs.declared.body.Body.{Body};

use crate::SiteNode;
use disk_model::Disk;
use role_steps::Pull;
use site_packs::{LaidPages, NewVersion};
use site_parts::site_tables::notes_own;
use site_parts::{NodeFault, enter};
use std::alloc::Global;
use trace_book::Record;
use wire_messages::{Body, Outbox, PageNumbers};

impl SiteNode {
    /// Adopts the version that is next, if an adoption is tried.
    pub(crate) fn try_adoption<D: Disk>(
        &mut self,
        disk: &mut D,
        tries: bool,
        out: &mut Outbox,
    ) -> Result<(), NodeFault>
        requires { Stand self.old.packs (D.moment disk.old) }
        ensures step { (body : Body) → tries ≡ is_tried body → OnOk result (Moves (tries_at self.old.frame.config self.old.frame.me body) self.old (D.moment disk.old) self.new (D.moment disk.new) out.old out.new) }
        ensures disk { (body : Body) → tries ≡ is_tried body → EventWrites (tries_at self.old.frame.config self.old.frame.me body (view_of self.old (D.moment disk.old).seen)).written self.old.packs (D.moment disk.old) (D.moment disk.new) out.old out.new result }
        ensures numbered { IfErr result (λ fault. fault ≢ NoNumber) }
        ensures unfit { result ≡ Err Unfit → (tries ≡ true → CanAdopt (groups_of self.old.packs) (view_of self.old (D.moment disk.old).seen)) → ⊥ }
    {
        if !tries {
            return Ok(());
        }
        self.adopt(disk, out)
    }

    /// Adopts the version that is next, if any is.
    pub(crate) fn adopt<D: Disk>(&mut self, disk: &mut D, out: &mut Outbox) -> Result<(), NodeFault>
        requires { Stand self.old.packs (D.moment disk.old) }
        ensures step { OnOk result (Moves (adopts_in self.old.frame.config self.old.frame.me) self.old (D.moment disk.old) self.new (D.moment disk.new) out.old out.new) }
        ensures disk { EventWrites (adopts_in self.old.frame.config self.old.frame.me (view_of self.old (D.moment disk.old).seen)).written self.old.packs (D.moment disk.old) (D.moment disk.new) out.old out.new result }
        ensures numbered { IfErr result (λ fault. fault ≢ NoNumber) }
        ensures unfit { result ≡ Err Unfit → CanAdopt (groups_of self.old.packs) (view_of self.old (D.moment disk.old).seen) → ⊥ }
    {
        let Some(epoch) = self.epochs.epoch() else {
            return Ok(());
        };
        enter(&mut self.frame, self.epochs.boot(), &epoch);
        let Some(pull) = self.choose() else {
            return Ok(());
        };
        self.adopt_pull(disk, pull, out)
    }

    /// A pulled version takes the place of the site's own copy, and its synchronization site hears of it.
    fn adopt_pull<D: Disk>(
        &mut self,
        disk: &mut D,
        pull: Pull,
        out: &mut Outbox,
    ) -> Result<(), NodeFault>
        requires { Stand self.old.packs (D.moment disk.old) }
        ensures step { OnOk result (Moves (adopted_now self.old.frame pull) self.old (D.moment disk.old) self.new (D.moment disk.new) out.old out.new) }
        ensures disk { EventWrites (adopted_now self.old.frame pull (view_of self.old (D.moment disk.old).seen)).written self.old.packs (D.moment disk.old) (D.moment disk.new) out.old out.new result }
        ensures numbered { IfErr result (λ fault. fault ≢ NoNumber) }
        ensures unfit { result ≡ Err Unfit → IsSized pull → is_complete pull ≡ true → CanKeep (groups_of self.old.packs) (view_of self.old (D.moment disk.old).seen).store pull → ⊥ }
    {
        let me = self.site();
        let file = pull.file;
        let stamp = pull.stamp;
        out.note(Record::Adopt {
            file,
            site: me.get(),
            stamp,
        })?;
        let before = self.stamp_held(file);
        let version = NewVersion {
            kind: pull.kind,
            set: pull.set,
            stamp,
            vector: pull.vector,
        };
        let pages = pages_brought(self.alloc, pull.wanted);
        let numbers = pages.as_slice();
        let bytes = pull.content.as_slice();
        let came = LaidPages {
            size: pull.size,
            numbers,
            bytes,
        };
        self.packs.adopt(disk, file, &version, &came)?;
        self.store.adopted(file, before, stamp, pages)?;
        notes_own(&mut self.tables, me, file, stamp)?;
        self.frame
            .send_to_sync(file.group, Body::Have { file, stamp }, out)?;
        Ok(())
    }
}

/// The pages that were pulled.
fn pages_brought(alloc: Global, wanted: Option<PageNumbers>) -> PageNumbers
    ensures { result ≡ unwrap_or wanted [] }
{
    match wanted {
        Some(pages) => pages,
        None => PageNumbers::new(alloc),
    }
}
