ghost use Rattle.std.specs.Prelude.{◌≡◌, ◌||◌, not};
ghost use Rattle.locus_ids.specs.Sites.{has};
ghost use Rattle.tree_model.specs.Packs.{is_within};
ghost use Rattle.tree_model.specs.Working.{list_of};
ghost use Rattle.promises.specs.Tree.{resolves_from};
ghost use Rattle.audit_tree.specs.Parts.{make_refusal_in, place_in, set_in, sync_in};

use locus_ids::sizes::SITES;
use locus_ids::{Config, Members, Refusal, Sites};
use trace_book::Call;
use tree_tables::{has_site, making_site, packs_of, site_named, sites_made};

/// The synchronization site of a group among these members.
#[tactic(auto, using(crate::proofs::Roles::sync_so))]
pub fn sync_site(config: &Config, members: &Members, group: u8) -> Option<u8>
    ensures { list_of result ≡ sync_in config.now members.now group }
{
    tree_tables::sync_site(config, group, &Some(*members))
}

/// The sites that a file is for which a call with these words makes in the group.
pub fn set_for(config: &Config, group: u8, words: &Call) -> Sites
    ensures { result ≡ set_in config.now group words.now }
{
    sites_made(packs_of(config, group), Some(words))
}

/// The storage site of a file that a call of this site makes in the group.
#[tactic(auto, using(crate::proofs::Roles::place_so))]
pub fn place_for(config: &Config, members: &Members, group: u8, own: u8, words: &Call) -> Option<u8>
    ensures { list_of result ≡ place_in config.now members.now group own words.now }
{
    let set = set_for(config, group, words);
    making_site(config, group, &Some(*members), own, set)
}

/// Why such a make is refused, or `None` where it isn't.
#[tactic(auto, using(crate::proofs::Roles::refused_so))]
pub fn make_refusal(
    config: &Config,
    members: &Members,
    group: u8,
    own: u8,
    words: &Call,
) -> Option<Refusal>
    ensures { result ≡ make_refusal_in config.now members.now group own words.now }
{
    let set = set_for(config, group, words);
    let place = place_for(config, members, group, own, words);
    if is_within(set, packs_of(config, group)) && place.is_some() {
        None
    } else {
        Some(Refusal::NoStorage)
    }
}

/// Every site of a set is in the other.
#[tactic(auto, using(tree_tables::proofs::Counting::next_number, tree_tables::proofs::Counting::no_number))]
fn is_within(a: Sites, b: Sites) -> bool
    ensures { result ≡ is_within a b }
{
    for site in 1..SITES as u8 + 1 {
        if !is_covered(a, b, site) {
            return false;
        }
    }
    true
}

/// The site is in the second set where it is in the first.
fn is_covered(a: Sites, b: Sites, site: u8) -> bool
    ensures { result ≡ (not (has a site) || has b site) }
{
    !has_site(a, site) || has_site(b, site)
}

/// The site that a call names to settle a conflict by its version.
#[tactic(auto, using(crate::proofs::Roles::named_so))]
pub fn resolves_from(words: &Call) -> Option<u8>
    ensures { list_of result ≡ resolves_from words.now }
{
    site_named(Some(words))
}
