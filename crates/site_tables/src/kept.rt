// What the tables know of the versions that are kept.
ghost use Rattle.std.specs.Prelude.{◌≡◌, ◌++◌, map, true, false, IfOk, IfSome, IfNone, OnOk};
ghost use Rattle.std.specs.List.{flat_map};
ghost use Rattle.role_steps.specs.Adoption.{table_group};
ghost use Rattle.role_steps.specs.Mends.{stamps_in, kept_vector, file_vectors, kept_vectors};
ghost use Rattle.role_steps.specs.Tables.{row};
ghost use Rattle.site_tables.specs.Inodes.{AreInodes, IsInode};

use css_core::Css;
use css_versions::KnownFile;
use dir_reconcile::{KeptVector, KeptVectors};
use keyed_tables::SortedTable;
use locus_ids::{FileId, Ino, NoMemory, Stamps};
use role_steps::VersionRow;
use std::alloc::Global;

/// The stamps of the kept versions of a file, where the site has the table of its group; none elsewhere.
pub fn stamps_kept(
    alloc: Global,
    tables: &SortedTable<Css>,
    file: FileId,
) -> Result<Stamps, NoMemory>
    ensures { IfOk result (λ made. made ≡ stamps_in file (row table_group file.group tables.now)) }
{
    match tables.find(u64::from(file.group)) {
        Some(table) => table.kept(file.ino),
        None => Ok(Stamps::new(alloc)),
    }
}

/// The vectors of all kept versions of a group; `None` only where a number in the table is no inode's.
pub fn kept_vectors(alloc: Global, table: &Css) -> Result<Option<KeptVectors>, NoMemory>
    ensures vectors { IfOk result (λ made. IfSome made (λ vectors. vectors ≡ kept_vectors table.now)) }
    ensures none { IfOk result (λ made. IfNone made (AreInodes table.now → ⊥)) }
{
    let mut made = KeptVectors::new(alloc);
    for file in table.files() {
        if !add_file(&mut made, file)? {
            return Ok(None);
        }
    }
    Ok(Some(made))
}

/// Adds the vectors of the kept versions of a file, where its number is an inode's.
fn add_file(made: &mut KeptVectors, file: &KnownFile) -> Result<bool, NoMemory>
    ensures vectors { IfOk result (λ is_file. is_file ≡ true → made.new ≡ made.old ++ file_vectors file.now) }
    ensures none { IfOk result (λ is_file. is_file ≡ false → IsInode file.now → ⊥) }
{
    let Some(ino) = Ino::new(file.ino()) else {
        return Ok(false);
    };
    add_versions(made, ino, file.kept())?;
    Ok(true)
}

fn add_versions(made: &mut KeptVectors, ino: Ino, versions: &[VersionRow]) -> Result<(), NoMemory>
    ensures { OnOk result (made.new ≡ made.old ++ map (kept_vector ino) versions.now) }
{
    for version in versions {
        made.push(KeptVector {
            ino,
            vector: version.vector,
        })?;
    }
    Ok(())
}
