ghost use Rattle.std.specs.Prelude.{◌≡◌, ◌≤◌, length, filter, OnOk};
ghost use Rattle.locus_ids.specs.declared.config.Config.{Config};
ghost use Rattle.locus_ids.specs.declared.ids.CallId.{CallId};
ghost use Rattle.locus_ids.specs.declared.ids.EpochId.{EpochId};
ghost use Rattle.trace_book.specs.declared.record.Record.TheVariants as rec;
ghost use Rattle.promises.specs.After.{after, is_epoch, is_id, with_making};
ghost use Rattle.audit_past.specs.Writing.{IsWritten};

use crate::{LastSeen, Told};
use commit_graph::Version;
use locus_ids::sizes::{FILE_BYTES, SITES};
use locus_ids::{Config, FileId, NoMemory, Stamp};

impl Told {
    /// The site adopts the version.
    pub fn adopted(&mut self, file: FileId, site: u8, stamp: Stamp) -> Result<(), NoMemory>
        ensures { (c : Config) → OnOk result (self.new ≡ after c (rec.Adopt file site stamp) self.old) }
    {
        self.sites.has_now(site, file, stamp)?;
        self.seen = LastSeen::Another;
        Ok(())
    }
}

impl Told {
    /// A version is committed by the one open instance of its file that isn't only read.
    pub fn committed(&mut self, config: &Config, version: Version) -> Result<(), NoMemory>
        requires calls { (id : CallId) → length (filter (is_id id) self.old.calls) ≤ 1 }
        requires epochs { (e : EpochId) → length (filter (is_epoch e) self.old.epochs) ≤ 1 }
        requires written { IsWritten self.old version.file version.site }
        ensures { OnOk result (self.new ≡ after config.now (rec.Commit version.file version.site version.stamp version.parents version.content) self.old) }
    {
        if usize::from(version.site) > SITES || version.content.len() > FILE_BYTES {
            return Err(NoMemory);
        }
        let file = version.file;
        let site = version.site;
        let stamp = version.stamp;
        let home = self.sites.site_at(site).epoch();
        self.make(config, file, site)?;
        self.sites.has_now(site, file, stamp)?;
        self.epochs.commit(home, file, site, stamp);
        self.versions.push(version)?;
        self.seen = LastSeen::Another;
        Ok(())
    }

    /// The first commit of a file tells what it is.
    #[tactic(auto, using(crate::proofs::Commits::making_of_one, crate::proofs::Commits::made_already))]
    fn make(&mut self, config: &Config, file: FileId, site: u8) -> Result<(), NoMemory>
        requires calls { (id : CallId) → length (filter (is_id id) self.old.calls) ≤ 1 }
        requires epochs { (e : EpochId) → length (filter (is_epoch e) self.old.epochs) ≤ 1 }
        requires written { IsWritten self.old file site }
        ensures { OnOk result (self.new ≡ record self.old { files = with_making config.now file site self.old }) }
    {
        if self.files.is_made(file) {
            return Ok(());
        }
        let Some(making) = self.making(config, file, site) else {
            return Err(NoMemory);
        };
        self.files.add(&making)
    }
}
