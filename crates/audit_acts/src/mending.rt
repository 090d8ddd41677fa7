ghost use Rattle.std.specs.Prelude.{◌≡◌, ◌++◌, [], cond, map, IfOk, OnOk};
ghost use Rattle.commit_graph.specs.Versions.{content_of};
ghost use Rattle.commit_graph.specs.Vectors.{vector_of};
ghost use Rattle.dir_format.specs.Contents.{entries_of};
ghost use Rattle.dir_format.specs.Entries.{is_live};
ghost use Rattle.tree_model.specs.Mending.{joined_all};
ghost use Rattle.promises.specs.Tree.{mended, wants_rescue};
ghost use Rattle.audit_acts.specs.Knowing.{knowing, of_history, vectors_of, vectors_removed};

use crate::keeping::kept_in;
use audit_copies::Known;
use audit_versions::Versions;
use dir_format::{Entry, is_live};
use dir_reconcile::{KeptVector, KeptVectors};
use locus_ids::{Bytes, FileId, Ino, NoMemory, Stamp};
use mixed_dirs::MixedDir;
use std::alloc::Global;

/// The content that a mend makes of a directory.

pub fn mended(alloc: Global, h: &Versions, known: &Known, file: FileId) -> Result<Bytes, NoMemory>
    ensures { IfOk result (λ bytes. bytes ≡ mended (of_history h.now) (knowing known.now []) file) }
{
    let kept = kept_in(alloc, h, known, file)?;
    let joined = joined(alloc, h, file, kept.as_slice())?;
    let vectors = vectors_removed(alloc, h, known, file.group, joined.as_slice())?;
    joined.rescued_bytes(&vectors)
}

/// Whether a file of the directory wants to live again.

pub fn wants_rescue(
    alloc: Global,
    h: &Versions,
    known: &Known,
    file: FileId,
) -> Result<bool, NoMemory>
    ensures { IfOk result (λ yes. yes ≡ wants_rescue (of_history h.now) (knowing known.now []) file) }
{
    let kept = kept_in(alloc, h, known, file)?;
    let joined = joined(alloc, h, file, kept.as_slice())?;
    let vectors = vectors_removed(alloc, h, known, file.group, joined.as_slice())?;
    joined.wants_rescue(&vectors)
}

/// The join of these versions of a directory.
fn joined(alloc: Global, h: &Versions, file: FileId, kept: &[Stamp]) -> Result<MixedDir, NoMemory>
    ensures { IfOk result (λ d. d ≡ joined_all (map (λ s. entries_of (content_of h.now file s)) kept.now)) }
{
    let mut joined = MixedDir::new(alloc);
    let mut left = kept.len();
    while left > 0 {
        left -= 1;
        joined = joined.with_content(h.content(file, kept[left]))?;
    }
    Ok(joined)
}

/// The vectors of the kept versions of the files that have removed entries.
fn vectors_removed(
    alloc: Global,
    h: &Versions,
    known: &Known,
    group: u8,
    entries: &[Entry],
) -> Result<KeptVectors, NoMemory>
    ensures { IfOk result (λ made. made ≡ vectors_removed h.now known.now group entries.now) }
{
    let mut made = KeptVectors::new(alloc);
    for entry in entries {
        add_removed(alloc, h, known, group, entry, &mut made)?;
    }
    Ok(made)
}

/// Adds those of an entry's file, where it is removed.
fn add_removed(
    alloc: Global,
    h: &Versions,
    known: &Known,
    group: u8,
    entry: &Entry,
    made: &mut KeptVectors,
) -> Result<(), NoMemory>
    ensures { OnOk result (made.new ≡ made.old ++ cond (is_live entry.now) [] (vectors_of h.now known.now group entry.now.ino)) }
{
    if is_live(entry) {
        return Ok(());
    }
    add_vectors(alloc, h, known, group, entry.ino, made)
}

fn add_vectors(
    alloc: Global,
    h: &Versions,
    known: &Known,
    group: u8,
    ino: Ino,
    made: &mut KeptVectors,
) -> Result<(), NoMemory>
    ensures { OnOk result (made.new ≡ made.old ++ vectors_of h.now known.now group ino) }
{
    let file = FileId {
        group,
        ino: ino.get(),
    };
    let kept = kept_in(alloc, h, known, file)?;
    push_vectors(h, file, ino, kept.as_slice(), made)
}

/// Adds the vectors of these versions of a file.
fn push_vectors(
    h: &Versions,
    file: FileId,
    ino: Ino,
    kept: &[Stamp],
    made: &mut KeptVectors,
) -> Result<(), NoMemory>
    ensures { OnOk result (made.new ≡ made.old ++ map (λ s. record { ino = ino; vector = vector_of h.now file s }) kept.now) }
{
    for stamp in kept {
        let vector = h.vector(file, *stamp);
        made.push(KeptVector { ino, vector })?;
    }
    Ok(())
}
