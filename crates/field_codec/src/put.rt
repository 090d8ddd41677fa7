ghost use Rattle.std.specs.Prelude.{◌≡◌, ◌++◌, OnOk, OnErr};
ghost use Rattle.field_codec.specs.Codec.{u8, u16, u32};

use locus_ids::{Bytes, NoMemory};

/// Adds a byte at the end.
pub fn put_u8(out: &mut Bytes, v: u8) -> Result<(), NoMemory>
    ensures ok { OnOk result (out.new ≡ out.old ++ u8.spell v) }
    ensures err { OnErr result (out.new ≡ out.old) }
{
    out.push(v)
}

/// Adds a number of two bytes at the end, the greater byte first.
pub fn put_u16(out: &mut Bytes, v: u16) -> Result<(), NoMemory>
    ensures ok { OnOk result (out.new ≡ out.old ++ u16.spell v) }
    ensures err { OnErr result (out.new ≡ out.old) }
{
    out.append(&v.to_be_bytes())
}

/// Adds a number of four bytes at the end, the greater bytes first.
pub fn put_u32(out: &mut Bytes, v: u32) -> Result<(), NoMemory>
    ensures ok { OnOk result (out.new ≡ out.old ++ u32.spell v) }
    ensures err { OnErr result (out.new ≡ out.old) }
{
    out.append(&v.to_be_bytes())
}

/// Adds the bytes at the end.
pub fn put_slice(out: &mut Bytes, b: &[u8]) -> Result<(), NoMemory>
    ensures ok { OnOk result (out.new ≡ out.old ++ b.now) }
    ensures err { OnErr result (out.new ≡ out.old) }
{
    out.append(b)
}
