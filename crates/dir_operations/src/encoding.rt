ghost use Rattle.std.specs.Prelude.{◌≡◌, ◌++◌, OnOk, OnErr, ℕ};
ghost use Rattle.dir_format.specs.Grammar.{kind_byte, vector_bytes, seen_bytes, entry_bytes, dir_bytes, IsDirectory};
ghost use Rattle.dir_format.specs.Entries.{IsEntry, is_live};

use dir_format::{Dir, Entry};
use field_codec::{put_slice, put_u8, put_u16, put_u32};
use locus_ids::sizes::SITES;
use locus_ids::{Bytes, Kind, NoMemory};
use version_vector::Vector;

/// Adds the bytes of a directory at the end.
pub fn encode_dir(d: &Dir, out: &mut Bytes) -> Result<(), NoMemory>
    ensures ok { OnOk result (out.new ≡ out.old ++ dir_bytes d.now) }
    ensures spelled { IsDirectory (dir_bytes d.now) d.now }
{
    for entry in d.as_slice() {
        put_entry(out, entry)?;
    }
    Ok(())
}

fn put_entry(out: &mut Bytes, entry: &Entry) -> Result<(), NoMemory>
    requires { IsEntry entry.now }
    ensures { OnOk result (out.new ≡ out.old ++ entry_bytes entry.now) }
{
    put_u8(out, entry.name.len() as u8)?;
    put_slice(out, entry.name.as_slice())?;
    put_u16(out, entry.ino.get())?;
    put_u8(out, kind_byte(entry.kind))?;
    put_u32(out, entry.count)?;
    put_seen(out, entry)
}

/// The byte of a kind.
pub(crate) fn kind_byte(kind: Kind) -> u8
    ensures { result ≡ kind_byte kind }
{
    match kind {
        Kind::File => 1,
        Kind::Dir => 2,
    }
}

fn put_seen(out: &mut Bytes, entry: &Entry) -> Result<(), NoMemory>
    ensures { OnOk result (out.new ≡ out.old ++ seen_bytes (is_live entry.now) entry.now.seen) }
{
    if entry.count % 2 == 1 {
        return Ok(());
    }
    put_vector(out, &entry.seen)
}

fn put_vector(out: &mut Bytes, v: &Vector<SITES>) -> Result<(), NoMemory>
    ensures { OnOk result (out.new ≡ out.old ++ vector_bytes v.now) }
{
    for n in v.parts() {
        put_u32(out, n)?;
    }
    Ok(())
}
