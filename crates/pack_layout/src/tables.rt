// A table of page numbers.
ghost use Rattle.std.specs.Prelude.{◌≡◌, length};
ghost use Rattle.locus_ids.specs.Sizes.{table_pages};
ghost use Rattle.pack_layout.specs.Layout.{table_bytes};

use crate::layout::{NUMBER_LENGTH, TABLE_LENGTH};
use crate::write::put_pages;
use locus_ids::sizes::TABLE_PAGES;

/// Writes a table.
pub fn write_table(numbers: &[u16], out: &mut [u8; TABLE_LENGTH])
    requires { length numbers.now ≡ table_pages }
    ensures { out.new ≡ table_bytes numbers.now }
{
    put_pages(out, 0, numbers);
}

/// Reads a table.
pub fn read_table(bytes: &[u8; TABLE_LENGTH], numbers: &mut [u16])
    requires { length numbers.old ≡ table_pages }
    ensures read { bytes.now ≡ table_bytes numbers.new }
    ensures count { length numbers.new ≡ table_pages }
{
    for i in 0..TABLE_PAGES {
        numbers[i] = 256 * bytes[NUMBER_LENGTH * i] as u16 + bytes[NUMBER_LENGTH * i + 1] as u16;
    }
}
