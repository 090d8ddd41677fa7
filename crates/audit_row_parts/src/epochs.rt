ghost use Rattle.std.specs.Prelude.{◌≡◌};
ghost use Rattle.tree_model.specs.Epochs.{is_epoch_below, is_in};

use locus_ids::EpochId;

/// The epoch is the one that a site is in.
pub fn is_in(now: Option<EpochId>, epoch: EpochId) -> bool
    ensures { result ≡ is_in now epoch }
{
    match now {
        Some(now) => now == epoch,
        None => false,
    }
}

/// Epochs are ordered by number, then site, then boot.
pub fn is_below(a: EpochId, b: EpochId) -> bool
    ensures { result ≡ is_epoch_below a b }
{
    a.number < b.number
        || (a.number == b.number && (a.site < b.site || (a.site == b.site && a.boot < b.boot)))
}
