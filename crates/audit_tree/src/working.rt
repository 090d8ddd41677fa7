ghost use Rattle.std.specs.Prelude.{◌≡◌, ◌-◌, ◌+◌, ◌&&◌, ℕ, List, nat_le, nat_lt, cond, length, IfOk};
ghost use Rattle.std.specs.Option.{is_none};
ghost use Rattle.locus_ids.specs.Sizes.{pack_pages};
ghost use Rattle.tree_model.specs.Opening.{range_of};
ghost use Rattle.tree_model.specs.Working.{are_several, list_of, max_counter, merges};

use locus_ids::sizes::{PACK_PAGES, SITE_INODES};
use locus_ids::{Mode, Stamp};

/// The pages that are free where so many are held and so many changed.
pub fn free_pages(held: usize, changed: usize) -> u16
    ensures { result ≡ pack_pages - (held + changed) }
{
    (PACK_PAGES as usize)
        .saturating_sub(held)
        .saturating_sub(changed) as u16
}

/// So many numbers in use and makes underway are as many as a site has numbers, at least.
#[tactic(auto, using(crate::proofs::Ranges::range_many))]
pub fn lacks_numbers(used: usize, makes: usize) -> bool
    ensures { (site : ℕ) → result ≡ nat_le (length (range_of site)) (used + makes) }
{
    used >= usize::from(SITE_INODES) || makes >= usize::from(SITE_INODES) - used
}

/// Several versions.
pub fn are_several(stamps: &[Stamp]) -> bool
    ensures { result ≡ are_several stamps.now }
{
    stamps.len() > 1
}

/// The counter that a commit must raise to this can't rise.
pub fn is_spent(next_number: u64) -> bool
    ensures { result ≡ nat_lt max_counter next_number }
{
    next_number > u64::from(u32::MAX)
}

/// The first commit of an instance of this mode has all kept versions as its parents.
pub fn merges(mode: Mode) -> bool
    ensures { result ≡ merges mode }
{
    matches!(mode, Mode::Resolve | Mode::Mend)
}
