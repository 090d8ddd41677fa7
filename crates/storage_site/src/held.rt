//! Reads whose asker has the bytes.

ghost use Rattle.std.specs.Prelude.{◌≡◌, ℕ, List, OnOk};
ghost use Rattle.role_steps.specs.Operations.{on_read_held};
ghost use Rattle.store_instances.specs.of_site_packs.Packs.{AreShown};
ghost use Rattle.store_instances.specs.Stores.{Gives, store_of};

use crate::Store;
use keyed_tables::serial_key;
use locus_ids::{NoMemory, Serial};
use site_frame::SiteFrame;
use store_instances::HeldRead;
use store_instances::site_packs::SitePacks;
use wire_messages::Outbox;

impl Store {
    /// A read of an instance, whose asker has the bytes of the version: one that was opened to read answers how many they are, any other
    /// answers them. It is told as any read.
    pub fn on_read_held(
        &mut self,
        frame: &SiteFrame,
        packs: &SitePacks,
        inst: Serial,
        read: HeldRead,
        out: &mut Outbox,
    ) -> Result<(), NoMemory>
        ensures { OnOk result ((image : List ℕ) → AreShown packs.now.packs image → Gives (on_read_held frame.now inst read.number read.at read.len (store_of self.old packs.now image)) (store_of self.new packs.now image) out.old out.new) }
    {
        match self.index.place(serial_key(inst)) {
            None => Ok(()),
            Some(place) => {
                let free = self.free_at(packs, place);
                let row = &mut self.rows[place];
                row.on_read_held(frame, read, free, out)?;
                Ok(())
            }
        }
    }
}
