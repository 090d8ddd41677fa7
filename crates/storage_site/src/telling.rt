//! What the role repeats at a tick, what it reports of its packs, and of which group an instance is.

ghost use Rattle.std.specs.Prelude.{◌≡◌, ◌++◌, ℕ, List, slice_get, OnOk};
ghost use Rattle.std.specs.List.{flat_map};
ghost use Rattle.std.specs.Option.{option_copied, option_map};
ghost use Rattle.role_steps.specs.Tables.{row};
ghost use Rattle.role_steps.specs.Views.{SiteView, serial_key};
ghost use Rattle.role_steps.specs.Epochs.{report_packets};
ghost use Rattle.role_steps.specs.Storage.{instance_key, store_repeats};
ghost use Rattle.role_steps.specs.declared.instances.Instance.{Instance};
ghost use Rattle.store_instances.specs.of_site_packs.Copies.{copies_on};
ghost use Rattle.store_instances.specs.of_site_packs.Packs.{AreShown, PacksState, groups_of};
ghost use Rattle.store_instances.specs.Stores.{store_of};
ghost use Rattle.storage_site.specs.Standing.{again_by};

use crate::Store;
use keyed_tables::serial_key;
use locus_ids::{NoMemory, Serial};
use site_frame::SiteFrame;
use store_instances::StoreInstance;
use store_instances::site_packs::SitePacks;
use wire_messages::{Body, Outbox};

impl Store {
    /// The group of the file of an instance; `None` exactly where there is no instance of this name.
    pub fn instance_group(&self, inst: Serial) -> Option<u8>
        ensures { result ≡ option_map (λ (i : Instance). i.file.group) (row instance_key (serial_key inst) self.now.instances) }
    {
        match self.find(inst) {
            Some(row) => Some(row.file().group),
            None => None,
        }
    }

    /// The instance of this name.
    pub(crate) fn find(&self, inst: Serial) -> Option<&StoreInstance>
        ensures { option_copied result ≡ row instance_key (serial_key inst) self.now.instances }
    {
        match self.index.place(serial_key(inst)) {
            Some(place) => Some(&self.rows[place]),
            None => None,
        }
    }

    /// Sends each close again that its synchronization site hasn't answered.
    pub fn repeats(&self, frame: &SiteFrame, out: &mut Outbox) -> Result<(), NoMemory>
        ensures packets { OnOk result ((p : PacksState) (image : List ℕ) → out.new.packets ≡ out.old.packets ++ store_repeats frame.now (store_of self.now p image)) }
        ensures records { OnOk result (out.new.records ≡ out.old.records) }
    {
        repeat_at(self.rows.as_slice(), self.standing.as_slice(), frame, out)?;
        Ok(())
    }

    /// Reports the copies of a group to its synchronization site.
    pub fn report(
        &self,
        frame: &SiteFrame,
        packs: &SitePacks,
        group: u8,
        out: &mut Outbox,
    ) -> Result<(), NoMemory>
        ensures packets { OnOk result ((v : SiteView) (image : List ℕ) → AreShown packs.now.packs image → v.store.copies ≡ copies_on (groups_of packs.now) image → out.new.packets ≡ out.old.packets ++ report_packets frame.now v group) }
        ensures records { OnOk result (out.new.records ≡ out.old.records) }
    {
        let copies = packs.report(*self.rows.allocator(), group)?;
        frame.send_to_sync(group, Body::Report { group, copies }, out)?;
        Ok(())
    }
}

/// Sends the close of each of the instances at these places again where it has not been answered.
fn repeat_at(
    rows: &[StoreInstance],
    standing: &[usize],
    frame: &SiteFrame,
    out: &mut Outbox,
) -> Result<(), NoMemory>
    ensures packets { OnOk result (out.new.packets ≡ out.old.packets ++ flat_map (λ q. again_by frame.now (slice_get rows.now q)) standing.now) }
    ensures records { OnOk result (out.new.records ≡ out.old.records) }
{
    for place in standing {
        repeat_one(rows, *place, frame, out)?;
    }
    Ok(())
}

fn repeat_one(
    rows: &[StoreInstance],
    place: usize,
    frame: &SiteFrame,
    out: &mut Outbox,
) -> Result<(), NoMemory>
    ensures packets { OnOk result (out.new.packets ≡ out.old.packets ++ again_by frame.now (slice_get rows.now place)) }
    ensures records { OnOk result (out.new.records ≡ out.old.records) }
{
    let Some(row) = row_at(rows, place) else {
        return Ok(());
    };
    row.repeat(frame, out)?;
    Ok(())
}

fn row_at(rows: &[StoreInstance], place: usize) -> Option<&StoreInstance>
    ensures { option_copied result ≡ slice_get rows.now place }
{
    rows.get(place)
}
