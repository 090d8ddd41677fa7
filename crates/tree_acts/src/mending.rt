ghost use Rattle.std.specs.Prelude.{◌≡◌, ◌<◌, ◌++◌, ◌∷◌, [], length, map, filter, IfOk, OnOk};
ghost use Rattle.commit_graph.specs.Versions.{content_of};
ghost use Rattle.tree_model.specs.Mending.{file_in, is_kept, kept_vectors, vector_kept};
ghost use Rattle.tree_model.specs.State.{kept_of};
ghost use Rattle.tree_acts.specs.Acting.{has_number};

use commit_graph::History;
use dir_reconcile::{KeptVector, KeptVectors};
use locus_ids::{Brought, Bytes, FileId, Ino, ItemList, NoMemory, Stamp, Stamps};
use operation_effects::MendingWork;
use std::alloc::Global;
use tree_steps::{TreeTables, content_at};
use tree_tables::has_stamp;
use written_vectors::vector_of;

/// What a mend of a directory works on: the contents of its versions that are kept, and the vectors of all versions that are
/// kept of the group's files. A directory has no others: a version of an inode past its range is left out.
pub(crate) fn mending(tree: &TreeTables, h: &History, file: FileId) -> Result<MendingWork, NoMemory>
    requires { length h.now < 4294967295 }
    ensures contents { IfOk result (λ made. made.contents ≡ map (content_of h.now file) (kept_of h.now tree.now file)) }
    ensures kept { IfOk result (λ made. made.kept ≡ filter has_number (kept_vectors h.now tree.now)) }
{
    let stamps = tree.kept(h, file)?;
    let contents = contents(tree.allocator(), h, file, stamps.as_slice())?;
    let kept = kept_vectors(tree, h)?;
    Ok(MendingWork { contents, kept })
}

/// The contents of these versions.
fn contents(
    alloc: Global,
    h: &History,
    file: FileId,
    stamps: &[Stamp],
) -> Result<ItemList<Bytes>, NoMemory>
    ensures { IfOk result (λ made. made ≡ map (content_of h.now file) stamps.now) }
{
    let mut made = ItemList::new(alloc);
    for stamp in stamps {
        made.push(content_at(alloc, h, file, Some(*stamp))?)?;
    }
    Ok(made)
}

/// The versions that are kept of a file.
#[derive(Drop)]
struct KeptOf {
    ino: u16,
    stamps: Stamps,
}

/// The vectors of the versions that are kept of all files of the group, where a directory can have them.
fn kept_vectors(tree: &TreeTables, h: &History) -> Result<KeptVectors, NoMemory>
    requires { length h.now < 4294967295 }
    ensures { IfOk result (λ made. made ≡ filter has_number (kept_vectors h.now tree.now)) }
{
    let mut made = KeptVectors::new(tree.allocator());
    let mut kept = kept_of(tree, h, 0)?;
    for brought in tree.known() {
        kept = kept_at(tree, h, kept, brought.ino)?;
        add_kept(tree, h, kept.stamps.as_slice(), *brought, &mut made)?;
    }
    Ok(made)
}

/// Adds the vector of a version where it is one of those that are kept of its file, and a directory can have that.
fn add_kept(
    tree: &TreeTables,
    h: &History,
    kept: &[Stamp],
    brought: Brought,
    made: &mut KeptVectors,
) -> Result<(), NoMemory>
    requires short { length h.now < 4294967295 }
    requires kept { kept.now ≡ kept_of h.now tree.now (file_in tree.now brought.ino) }
    ensures { OnOk result (made.new ≡ made.old ++ filter has_number (map (vector_kept h.now tree.now) (filter (is_kept h.now tree.now) (brought ∷ [])))) }
{
    if !has_stamp(kept, brought.stamp) {
        return Ok(());
    }
    let Some(ino) = Ino::new(brought.ino) else {
        return Ok(());
    };
    let vector = vector_kept(tree, h, ino, brought.stamp)?;
    made.push(vector)?;
    Ok(())
}

fn kept_of(tree: &TreeTables, h: &History, ino: u16) -> Result<KeptOf, NoMemory>
    ensures inode { IfOk result (λ made. made.ino ≡ ino) }
    ensures stamps { IfOk result (λ made. made.stamps ≡ kept_of h.now tree.now (file_in tree.now ino)) }
{
    let stamps = tree.kept(h, file_in(tree, ino))?;
    Ok(KeptOf { ino, stamps })
}

/// What is kept of this inode, which is asked once where it is asked for several times together.
fn kept_at(tree: &TreeTables, h: &History, before: KeptOf, ino: u16) -> Result<KeptOf, NoMemory>
    requires { before.stamps ≡ kept_of h.now tree.now (file_in tree.now before.ino) }
    ensures inode { IfOk result (λ made. made.ino ≡ ino) }
    ensures stamps { IfOk result (λ made. made.stamps ≡ kept_of h.now tree.now (file_in tree.now ino)) }
{
    if before.ino == ino {
        return Ok(before);
    }
    kept_of(tree, h, ino)
}

/// The vector of a version of an inode that a directory can have.
fn vector_kept(
    tree: &TreeTables,
    h: &History,
    ino: Ino,
    stamp: Stamp,
) -> Result<KeptVector, NoMemory>
    requires { length h.now < 4294967295 }
    ensures { IfOk result (λ made. made ≡ vector_kept h.now tree.now (record { ino = ino; stamp = stamp })) }
{
    let file = file_in(tree, ino.get());
    let vector = vector_of(tree.allocator(), h, file, stamp)?;
    Ok(KeptVector { ino, vector })
}

fn file_in(tree: &TreeTables, ino: u16) -> FileId
    ensures { result ≡ file_in tree.now ino }
{
    FileId {
        group: tree.group(),
        ino,
    }
}
