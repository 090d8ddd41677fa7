ghost use Rattle.std.specs.Prelude.{◌≡◌, ◌+◌, ◌↔◌, IfSome, IsNone};
ghost use Rattle.trace_book.specs.Same.{same_epoch};
ghost use Rattle.role_steps.specs.Epochs.{is_epoch_below};

use locus_ids::EpochId;

/// Ids are ordered by number, then by site, then by boot.
pub fn is_epoch_below(a: EpochId, b: EpochId) -> bool
    ensures { result ≡ is_epoch_below a b }
{
    a.number < b.number
        || (a.number == b.number && (a.site < b.site || (a.site == b.site && a.boot < b.boot)))
}

/// Two ids name one epoch.
pub fn same_epoch(a: EpochId, b: EpochId) -> bool
    ensures { result ≡ same_epoch a b }
{
    a.number == b.number && a.site == b.site && a.boot == b.boot
}

/// The number of an epoch that is formed above this id, or `None` exactly where the id has the greatest number that there
/// is.
pub fn next_number(id: EpochId) -> Option<u32>
    ensures none { IsNone result ↔ id.number ≡ 4294967295 }
    ensures value { IfSome result (λ number. number ≡ id.number + 1) }
{
    id.number.checked_add(1)
}
