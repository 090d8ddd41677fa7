//! Which pages of a version are new to a site that has an older one.

ghost use Rattle.std.specs.Prelude.{◌≡◌, ◌++◌, ◌∷◌, [], ℕ, List, OnOk};
ghost use Rattle.wire_messages.specs.declared.body.Body.TheVariants as Body;
ghost use Rattle.role_steps.specs.Views.{packet};
ghost use Rattle.role_steps.specs.Storage.{on_want, with_step};
ghost use Rattle.store_instances.specs.of_site_packs.Packs.{AreShown};
ghost use Rattle.store_instances.specs.Stores.{Gives, store_of};

use crate::Store;
use crate::deltas::delta_of;
use crate::serving::same_stamp;
use file_content::pages_of;
use locus_ids::{FileId, NoMemory, SiteId, Stamp};
use role_steps::Step;
use site_frame::SiteFrame;
use store_instances::site_packs::SitePacks;
use wire_messages::{Body, Outbox, PageNumbers};

impl Store {
    /// A version was adopted, over the one of this stamp or over none, and these of its pages were written.
    pub fn adopted(
        &mut self,
        file: FileId,
        before: Option<Stamp>,
        after: Stamp,
        pages: PageNumbers,
    ) -> Result<(), NoMemory>
        ensures { OnOk result (self.new ≡ record self.old { steps = with_step file (record { before = before; after = after; pages = pages }) self.old.steps }) }
    {
        let step = Step {
            before,
            after,
            pages,
        };
        self.steps.remember(file, step)?;
        Ok(())
    }

    /// A site asks which pages of a version it is to pull over its own one. It is answered exactly where the wanted version is
    /// committed here: those that were written since, where all steps since are remembered, else all.
    pub fn on_want(
        &self,
        frame: &SiteFrame,
        packs: &SitePacks,
        from: SiteId,
        file: FileId,
        wanted: Stamp,
        own: Stamp,
        out: &mut Outbox,
    ) -> Result<(), NoMemory>
        ensures { OnOk result ((image : List ℕ) → AreShown packs.now.packs image → Gives (on_want frame.now from file wanted own (store_of self.now packs.now image)) (store_of self.now packs.now image) out.old out.new) }
    {
        let Some(copy) = packs.head(file) else {
            return Ok(());
        };
        if !same_stamp(copy.stamp, wanted) {
            return Ok(());
        }
        let alloc = *self.rows.allocator();
        let count = pages_of(copy.size as usize);
        let pages = delta_of(alloc, self.steps.of(file), own, wanted, count)?;
        send_delta(frame, from, file, wanted, pages, out)?;
        Ok(())
    }
}

fn send_delta(
    frame: &SiteFrame,
    to: SiteId,
    file: FileId,
    wanted: Stamp,
    pages: PageNumbers,
    out: &mut Outbox,
) -> Result<(), NoMemory>
    ensures packets { OnOk result (out.new.packets ≡ out.old.packets ++ packet frame.now to (Body.Delta file wanted pages) ∷ []) }
    ensures records { OnOk result (out.new.records ≡ out.old.records) }
{
    let body = Body::Delta {
        file,
        wanted,
        pages,
    };
    out.send(frame.packet(to, body))
}
