ghost use Rattle.std.specs.Prelude.{◌≡◌, ◌==◌, ◌&&◌, false, map, IfOk};
ghost use Rattle.std.specs.List.{list_any};
ghost use Rattle.dir_format.specs.Entries.{IsEntry, IsDir, is_live, max_count};
ghost use Rattle.dir_reconcile.specs.Rescues.{Rescued, rescued, revived, rescue_is_spent, entry_after_rescue, is_to_rescue};

use crate::join::{copy_of, push};
use crate::wanting::is_to_rescue;
use crate::{KeptVector, KeptVectors, RescueFault};
use dir_format::locus_ids::NoMemory;
use dir_format::version_vector::Vector;
use dir_format::{Dir, Entry};
use std::alloc::Global;

/// The directory in which one entry more is live for each inode that wants a rescue.
pub fn rescue(alloc: Global, d: &Dir, kept: &KeptVectors) -> Result<Dir, RescueFault>
    ensures { Rescued d.now kept.now result }
{
    let entries = d.as_slice();
    let kept = kept.as_slice();
    if is_spent(entries, kept) {
        return Err(RescueFault::Spent);
    }
    let entries = rescued(alloc, entries, kept)?;
    Ok(Dir::of(entries))
}

/// Whether an entry that is to become live has the greatest count.
fn is_spent(entries: &[Entry], kept: &[KeptVector]) -> bool
    ensures { result ≡ rescue_is_spent entries.now kept.now }
{
    entries.iter().any(|entry| entry.count == u32::MAX && is_to_rescue(entries, kept, entry))
}

fn rescued(alloc: Global, entries: &[Entry], kept: &[KeptVector]) -> Result<Vec<Entry>, NoMemory>
    requires { IsDir entries.now }
    ensures { IfOk result (λ v. v.items ≡ rescued entries.now kept.now) }
{
    let mut out = Vec::new(alloc);
    for entry in entries {
        let next = entry_after_rescue(entries, kept, entry)?;
        push(&mut out, next)?;
    }
    Ok(out)
}

fn entry_after_rescue(
    entries: &[Entry],
    kept: &[KeptVector],
    entry: &Entry,
) -> Result<Entry, NoMemory>
    requires { IsEntry entry.now }
    ensures { IfOk result (λ e. e ≡ entry_after_rescue entries.now kept.now entry.now) }
{
    if is_to_rescue(entries, kept, entry) {
        revived(entry)
    } else {
        copy_of(entry)
    }
}

/// The removed entry as a live one.
fn revived(entry: &Entry) -> Result<Entry, NoMemory>
    requires entry { IsEntry entry.now }
    requires removed { is_live entry.now ≡ false }
    ensures { IfOk result (λ e. e ≡ revived entry.now) }
{
    let name = entry.name.copy()?;
    Ok(Entry {
        name,
        ino: entry.ino,
        kind: entry.kind,
        count: entry.count + 1,
        seen: Vector::zero(),
    })
}
