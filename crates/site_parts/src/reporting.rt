// What is told and reported where a site joins an epoch.
ghost use Rattle.std.specs.Prelude.{◌≡◌, ◌++◌, ℕ, List, [], ◌∷◌, OnOk};
ghost use Rattle.std.specs.List.{flat_map};
ghost use Rattle.merge_protocol.specs.Parts.{alone, epoch_part};
ghost use Rattle.role_steps.specs.Epochs.{joined_view, report_packets};
ghost use Rattle.role_steps.specs.Views.{SiteView};
ghost use Rattle.site_packs.specs.Copies.{copies_on};
ghost use Rattle.site_packs.specs.Packs.{AreShown, groups_of};
ghost use Rattle.trace_book.specs.declared.record.Record.TheVariants as Record;

use locus_ids::NoMemory;
use merge_protocol::EpochState;
use role_steps::InEpoch;
use site_frame::SiteFrame;
use site_packs::SitePacks;
use storage_site::Store;
use wire_messages::Outbox;

/// The site is in the epoch, as far as its place in epochs goes.
pub fn join_epoch(
    epochs: &mut EpochState,
    frame: &SiteFrame,
    epoch: InEpoch,
    out: &mut Outbox,
) -> Result<(), NoMemory>
    ensures view { OnOk result (epochs.new ≡ epoch_part (joined_view frame.now.config frame.now.me epoch.id epoch.members (alone epochs.old))) }
    ensures packets { OnOk result (out.new.packets ≡ out.old.packets) }
    ensures records { OnOk result (out.new.records ≡ out.old.records ++ Record.Join frame.now.me epoch.id epoch.members ∷ []) }
{
    epochs.join(&frame.config, frame.me, epoch, out)?;
    Ok(())
}

/// Each pack of these groups is reported.
pub fn report_groups(
    groups: &[u8],
    store: &Store,
    packs: &SitePacks,
    frame: &SiteFrame,
    out: &mut Outbox,
) -> Result<(), NoMemory>
    ensures packets { OnOk result ((v : SiteView) (image : List ℕ) → AreShown packs.now.packs image → v.store.copies ≡ copies_on (groups_of packs.now) image → out.new.packets ≡ out.old.packets ++ flat_map (report_packets frame.now v) groups.now) }
    ensures records { OnOk result (out.new.records ≡ out.old.records) }
{
    for group in groups {
        store.report(frame, packs, *group, out)?;
    }
    Ok(())
}
