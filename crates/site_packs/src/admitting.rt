// Whether a commit of a version may be carried out.
ghost use Rattle.std.specs.Prelude.{◌≡◌, ◌↔◌, ◌<◌, ℕ, Bool, length, Err, IfOk, IfErr};
ghost use Rattle.disk_model.specs.Disk.{Goes, HasCause, TellsRead};
ghost use Rattle.disk_model.specs.Images.{Same};
ghost use Rattle.site_packs.specs.declared.faults.CommitFault.TheVariants.{NoSpace, Unfit, NoMemory};
ghost use Rattle.site_packs.specs.Packs.{Stand};
ghost use Rattle.site_packs.specs.Committing.{IsFit, room, commit_answer};
ghost use Rattle.site_packs.specs.Cutting.{HasSize};
ghost use Rattle.site_packs.specs.Planning.{IsAdmitted};

use crate::planning::Plan;
use crate::{CommitFault, NewVersion, SitePacks};
use disk_model::Disk;
use locus_ids::FileId;
use locus_ids::sizes::{CONTENT_PAGES, PAGE_BYTES};
use page_marks::marks_of;

/// Where a version is to be stored, and which of its pages are written.
#[derive(Drop)]
pub(crate) struct Admitted {
    pub plan: Plan,
    pub marks: [bool; CONTENT_PAGES],
}

impl SitePacks {
    /// Finds what stands against a commit, and writes nothing.
    pub(crate) fn admit<D: Disk>(
        &self,
        disk: &mut D,
        file: FileId,
        version: &NewVersion,
        content: &[u8],
        changed: &[usize],
    ) -> Result<Admitted, CommitFault>
        requires stands { Stand self.now (D.moment disk.old) }
        ensures admitted { IfOk result (λ admitted. IsAdmitted self.now (D.moment disk.old).seen file version.now content.now changed.now admitted) }
        ensures unfit { result ≡ Err Unfit → IsFit self.now (D.moment disk.old).seen file version.now content.now changed.now → ⊥ }
        ensures no_space { (result ≡ Err NoSpace) ↔ (room self.now (D.moment disk.old).seen file.group < length changed.now) }
        ensures early { result ≡ Err NoSpace → disk.new ≡ disk.old }
        ensures no_memory { result ≡ Err NoMemory → ⊥ }
        ensures unwritten { IfErr result (λ fault. (pages : ℕ) (replaces : Bool) → HasSize pages replaces fault) }
        ensures seen { (D.moment disk.new).seen ≡ (D.moment disk.old).seen }
        ensures stands { Stand self.now (D.moment disk.new) }
        ensures crash { Goes Same (D.moment disk.old) (D.moment disk.new) }
        ensures cause { HasCause (D.moment disk.old).faults (D.moment disk.new).faults (commit_answer result) }
        ensures tells { TellsRead (D.moment disk.old).passing (D.moment disk.new).passing (commit_answer result) }
        ensures how { (D.moment disk.new).how ≡ (D.moment disk.old).how }
    {
        if changed.len() > usize::from(self.free_pages(file.group)) {
            return Err(CommitFault::NoSpace);
        }
        let Some(plan) = self.plan(file, version, content.len()) else {
            return Err(CommitFault::Unfit);
        };
        let Some(marks) = marks_of(changed, content.len().div_ceil(PAGE_BYTES)) else {
            return Err(CommitFault::Unfit);
        };
        if !self.keeps_rest(disk, file, content, &marks)? {
            return Err(CommitFault::Unfit);
        }
        Ok(Admitted { plan, marks })
    }
}
