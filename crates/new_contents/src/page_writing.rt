// A page of a content is written, with zeros behind its end.
ghost use Rattle.std.specs.Prelude.{◌≡◌, ◌≤◌, ◌<◌, length, Some, OnOk};
ghost use Rattle.locus_ids.specs.Sizes.{page_bytes};
ghost use Rattle.disk_model.specs.Disk.{Goes, HasCause};
ghost use Rattle.disk_model.specs.Moments.{TellsMany};
ghost use Rattle.gate_switch.specs.Switch.{AreWithin, TornIn, written};
ghost use Rattle.shadow_pages.specs.Working.{padded};
ghost use Rattle.new_contents.specs.Changed.{piece_at};

use disk_model::{Disk, DiskFault};
use locus_ids::sizes::PAGE_BYTES;

/// Writes these bytes of a page, with zeros behind them.
pub(crate) fn put_padded<D: Disk>(disk: &mut D, at: u32, bytes: &[u8]) -> Result<(), DiskFault>
    requires short { length bytes.now ≤ page_bytes }
    requires within { AreWithin (piece_at at (Some (padded page_bytes bytes.now))) (length (D.moment disk.old).seen) }
    ensures written { OnOk result ((D.moment disk.new).seen ≡ written (D.moment disk.old).seen (piece_at at (Some (padded page_bytes bytes.now)))) }
    ensures crash { Goes (TornIn (piece_at at (Some (padded page_bytes bytes.now)))) (D.moment disk.old) (D.moment disk.new) }
    ensures cause { HasCause (D.moment disk.old).faults (D.moment disk.new).faults result }
    ensures tells { TellsMany 1 (D.moment disk.old).passing (D.moment disk.new).passing result }
    ensures how { (D.moment disk.new).how ≡ (D.moment disk.old).how }
{
    if bytes.len() < PAGE_BYTES {
        return put_last(disk, at, bytes);
    }
    disk.write_at(at, bytes)
}

/// Writes the last page of a content, with zeros behind its end.
fn put_last<D: Disk>(disk: &mut D, at: u32, bytes: &[u8]) -> Result<(), DiskFault>
    requires short { length bytes.now < page_bytes }
    requires within { AreWithin (piece_at at (Some (padded page_bytes bytes.now))) (length (D.moment disk.old).seen) }
    ensures written { OnOk result ((D.moment disk.new).seen ≡ written (D.moment disk.old).seen (piece_at at (Some (padded page_bytes bytes.now)))) }
    ensures crash { Goes (TornIn (piece_at at (Some (padded page_bytes bytes.now)))) (D.moment disk.old) (D.moment disk.new) }
    ensures cause { HasCause (D.moment disk.old).faults (D.moment disk.new).faults result }
    ensures tells { TellsMany 1 (D.moment disk.old).passing (D.moment disk.new).passing result }
    ensures how { (D.moment disk.new).how ≡ (D.moment disk.old).how }
{
    disk.write_at(at, &padded_page(bytes))
}

/// A page with zeros behind these bytes.
fn padded_page(bytes: &[u8]) -> [u8; PAGE_BYTES]
    requires { length bytes.now < page_bytes }
    ensures { result ≡ padded page_bytes bytes.now }
{
    let mut page = [0; PAGE_BYTES];
    page[..bytes.len()].copy_from_slice(bytes);
    page
}
