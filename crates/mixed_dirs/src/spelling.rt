ghost use Rattle.std.specs.Prelude.{◌≡◌, ◌++◌, length, IfOk, OnOk};
ghost use Rattle.dir_format.specs.Entries.{IsEntry};
ghost use Rattle.dir_format.specs.Grammar.{dir_bytes, entry_bytes};
ghost use Rattle.mixed_dirs.specs.Mixed.{with_kinds};

use crate::joining::{copy_of, push};
use dir_format::{Dir, Entry};
use dir_operations::encode_dir;
use locus_ids::{Bytes, Kind, NoMemory};
use std::alloc::Global;

/// The bytes of the entries of a directory, one by one with the kinds of others.
pub(crate) fn spell(alloc: Global, others: &[Entry], d: &Dir) -> Result<Bytes, NoMemory>
    requires { length others.now ≡ length d.now }
    ensures { IfOk result (λ bytes. bytes ≡ dir_bytes (with_kinds others.now d.now)) }
{
    let entries = d.as_slice();
    let mut bytes = Bytes::new(alloc);
    for i in 0..entries.len() {
        put_entry(alloc, &entries[i], others[i].kind, &mut bytes)?;
    }
    Ok(bytes)
}

/// Adds the bytes of an entry with this kind.
fn put_entry(alloc: Global, entry: &Entry, kind: Kind, out: &mut Bytes) -> Result<(), NoMemory>
    requires { IsEntry entry.now }
    ensures { OnOk result (out.new ≡ out.old ++ entry_bytes (record entry.now { kind = kind })) }
{
    let mut own = copy_of(entry)?;
    own.kind = kind;
    let mut one = Vec::new(alloc);
    push(&mut one, own)?;
    encode_dir(&Dir::of(one), out)
}
