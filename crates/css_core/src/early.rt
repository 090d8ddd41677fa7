ghost use Rattle.std.specs.Prelude.{◌≡◌, ◌++◌, IfOk, OnOk, map};
ghost use Rattle.std.specs.List.{list_any, list_all, flat_map};
ghost use Rattle.locus_ids.specs.Sites.{has};
ghost use Rattle.role_steps.specs.Reports.{is_early_of, brought_of, brought_files};

use css_versions::KnownFile;
use locus_ids::{Brought, NoMemory, SiteId, Sites};
use role_steps::{Early, VersionRow};
use std::alloc::Global;
use trace_book::BroughtList;

/// A request of this site and process waits.
pub fn is_waiting(early: &[Early], site: SiteId, process: u8) -> bool
    ensures { result ≡ list_any (is_early_of site process) early.now }
{
    early.iter().any(|one| one.site.get() == site.get() && one.process == process)
}

/// Each of the sites is in the set.
pub fn has_all(set: Sites, sites: &[SiteId]) -> bool
    ensures { result ≡ list_all (has set) sites.now }
{
    sites.iter().all(|site| set.has(*site))
}

/// Each pair of inode and known stamp, ascending.
pub fn brought(alloc: Global, files: &[KnownFile]) -> Result<BroughtList, NoMemory>
    ensures { IfOk result (λ made. made ≡ flat_map brought_files files.now) }
{
    let mut made = BroughtList::new(alloc);
    for file in files {
        add_brought(&mut made, file.ino(), file.versions())?;
    }
    Ok(made)
}

fn add_brought(made: &mut BroughtList, ino: u16, versions: &[VersionRow]) -> Result<(), NoMemory>
    ensures { OnOk result (made.new ≡ made.old ++ map (brought_of ino) versions.now) }
{
    for version in versions {
        made.push(Brought {
            ino,
            stamp: version.stamp,
        })?;
    }
    Ok(())
}
