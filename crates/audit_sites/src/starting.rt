ghost use Rattle.std.specs.Prelude.{◌≡◌, map, filter, IfOk};
ghost use Rattle.commit_graph.specs.Vectors.{numbers_from};
ghost use Rattle.tree_model.specs.Packs.{has_pack};
ghost use Rattle.tree_model.specs.Histories.{format_stamp};
ghost use Rattle.promises.specs.Past.{first_site, groups};
ghost use Rattle.call_rules.specs.Walks.{root_of};

use crate::site::SiteRow;
use audit_copies::CopyRow;
use locus_ids::{Config, FileId, NoMemory, Stamp};
use std::alloc::Global;
use tree_tables::has_pack;

/// The root directory of a group, as its packs are formatted.
fn first_copy(group: u8) -> CopyRow
    ensures { result ≡ record { file = root_of group; stamp = format_stamp } }
{
    CopyRow {
        file: FileId { group, ino: 1 },
        stamp: Stamp { site: 0, n: 0 },
    }
}

#[tactic(auto, using(tree_tables::proofs::Counting::next_number, tree_tables::proofs::Counting::no_number))]
/// The root directories that the site has from the format on.
fn first_copies(alloc: Global, config: &Config, site: u8) -> Result<Vec<CopyRow>, NoMemory>
    ensures { IfOk result (λ made. made.items ≡ map (λ group. record { file = root_of group; stamp = format_stamp }) (filter (λ group. has_pack config.now group site) groups)) }
{
    let mut made = Vec::new(alloc);
    for group in 0..4 {
        if has_pack(config, group, site) {
            made.push(first_copy(group))?;
        }
    }
    Ok(made)
}

/// A site as the cluster begins.
fn first_site(alloc: Global, config: &Config, site: u8) -> Result<SiteRow, NoMemory>
    ensures { IfOk result (λ made. made ≡ first_site config.now site) }
{
    let held = first_copies(alloc, config, site)?;
    Ok(SiteRow {
        number: site,
        up: true,
        boot: 1,
        held,
        ..SiteRow::nobody(alloc)
    })
}

#[tactic(auto, using(tree_tables::proofs::Counting::next_number, tree_tables::proofs::Counting::no_number))]
/// All sites as the cluster begins.
pub(crate) fn first_rows(alloc: Global, config: &Config) -> Result<Vec<SiteRow>, NoMemory>
    ensures { IfOk result (λ made. made.items ≡ map (first_site config.now) (numbers_from 1 config.now.sites)) }
{
    let mut made = Vec::new(alloc);
    for place in 0..config.sites {
        made.push(first_site(alloc, config, place + 1)?)?;
    }
    Ok(made)
}
