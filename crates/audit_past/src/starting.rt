ghost use Rattle.std.specs.Prelude.{◌≡◌, filter, map, nat_lt, OnOk, IfOk};
ghost use Rattle.tree_model.specs.Histories.{format_version};
ghost use Rattle.tree_model.specs.Packs.{packs_of};
ghost use Rattle.promises.specs.Past.{groups, nothing_yet};
ghost use Rattle.audit_past.specs.Starting.{formatted};

use crate::{LastSeen, Told};
use audit_acts::audit_tree::LastDir;
use audit_calls::Calls;
use audit_epochs::Epochs;
use audit_sites::{Makings, SiteRows};
use audit_versions::Versions;
use commit_graph::Version;
use locus_ids::{Bytes, Config, FileId, NoMemory, Stamp, Stamps};
use std::alloc::Global;
use tree_tables::packs_of;

impl Told {
    /// Before the first record: the cluster as it begins. What is kept later comes from this allocator.
    pub fn new(alloc: Global, config: &Config) -> Result<Told, NoMemory>
        ensures { IfOk result (λ told. told ≡ nothing_yet config.now) }
    {
        let sites = SiteRows::new(alloc, config)?;
        let versions = first_versions(alloc, config)?;
        let files = Makings::new(alloc, config)?;
        Ok(Told {
            alloc,
            sites,
            epochs: Epochs::new(alloc),
            calls: Calls::new(alloc),
            versions,
            files,
            seen: LastSeen::Another,
            dir: LastDir::new(alloc),
        })
    }
}

/// The versions that the format made: an empty root directory of each group that has packs.
fn first_versions(alloc: Global, config: &Config) -> Result<Versions, NoMemory>
    ensures { IfOk result (λ made. made ≡ map format_version (filter (λ group. nat_lt 0 (packs_of config.now group).0) groups)) }
{
    let mut versions = Versions::new(alloc);
    format(alloc, config, 3, &mut versions)?;
    format(alloc, config, 2, &mut versions)?;
    format(alloc, config, 1, &mut versions)?;
    format(alloc, config, 0, &mut versions)?;
    Ok(versions)
}

/// The version of the root of a group, where it has packs.
fn format(
    alloc: Global,
    config: &Config,
    group: u8,
    versions: &mut Versions,
) -> Result<(), NoMemory>
    ensures { OnOk result (versions.new ≡ formatted config.now group versions.old) }
{
    if packs_of(config, group).0 > 0 {
        versions.push(format_version(alloc, group))?;
    }
    Ok(())
}

fn format_version(alloc: Global, group: u8) -> Version
    ensures { result ≡ format_version group }
{
    Version {
        file: FileId { group, ino: 1 },
        site: 0,
        stamp: Stamp { site: 0, n: 0 },
        parents: Stamps::new(alloc),
        content: Bytes::new(alloc),
    }
}
