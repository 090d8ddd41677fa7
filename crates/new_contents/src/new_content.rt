// What is asked of a new content that is written.
ghost use Rattle.std.specs.Prelude.{◌≡◌, ◌≤◌, ℕ, List, length, Some, OnOk};
ghost use Rattle.locus_ids.specs.Sizes.{content_bytes_max, page_bytes, content_pages_max};
ghost use Rattle.disk_model.specs.Disk.{Goes, HasCause};
ghost use Rattle.disk_model.specs.Moments.{TellsMany};
ghost use Rattle.file_content.specs.Pages.{pages_of};
ghost use Rattle.gate_switch.specs.Switch.{AreWithin, TornIn, written};
ghost use Rattle.shadow_pages.specs.Working.{Working, page_at as shadow_page};
ghost use Rattle.new_contents.specs.Changed.{HasChanged, is_changed, needed, piece_at};

use crate::rows::Row;
use disk_model::{Disk, DiskFault};

/// A new content over the one before it: its size, and the pages of it that are written. The others stay where they stand.
pub trait NewContent {
    /// The content, as its size and its changed pages.
    ghost working: { Self → Working };

    /// The size of the content in bytes.
    fn size(&self) -> u32
        requires { (working self.now).size ≤ content_bytes_max }
        ensures value { result ≡ (working self.now).size };

    /// Pages of the content in a row, among which all changed ones are.
    fn row(&self) -> Row
        requires { (working self.now).size ≤ content_bytes_max }
        ensures changed { HasChanged result.first result.stop (working self.now) }
        ensures ordered { result.first ≤ result.stop }
        ensures inside { result.stop ≤ pages_of (working self.now).size };

    /// How many pages of the content are changed, all of which are among those in a row.
    fn count(&self, row: Row) -> u16
        requires size { (working self.now).size ≤ content_bytes_max }
        requires changed { HasChanged row.first row.stop (working self.now) }
        requires ordered { row.first ≤ row.stop }
        requires inside { row.stop ≤ pages_of (working self.now).size }
        ensures number { result ≡ needed (working self.now) }
        ensures most { result ≤ content_pages_max };

    /// Whether a page is changed.
    fn is_changed(&self, i: u16) -> bool
        requires { (working self.now).size ≤ content_bytes_max }
        ensures changed { result ≡ is_changed (working self.now) i }
        ensures whole { (page : List ℕ) → shadow_page (working self.now).pages i ≡ Some page → length page ≡ page_bytes };

    /// Writes a page at a place, if it is changed.
    fn put_page<D: Disk>(&self, disk: &mut D, at: u32, i: u16) -> Result<(), DiskFault>
        requires { AreWithin (piece_at at (shadow_page (working self.now).pages i)) (length (D.moment disk.old).seen) }
        ensures written { OnOk result ((D.moment disk.new).seen ≡ written (D.moment disk.old).seen (piece_at at (shadow_page (working self.now).pages i))) }
        ensures crash { Goes (TornIn (piece_at at (shadow_page (working self.now).pages i))) (D.moment disk.old) (D.moment disk.new) }
        ensures cause { HasCause (D.moment disk.old).faults (D.moment disk.new).faults result }
        ensures tells { TellsMany (length (piece_at at (shadow_page (working self.now).pages i))) (D.moment disk.old).passing (D.moment disk.new).passing result }
        ensures how { (D.moment disk.new).how ≡ (D.moment disk.old).how };
}
