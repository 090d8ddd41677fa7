// A table is taken out, to be put back.
ghost use Rattle.std.specs.Prelude.{◌≡◌};
ghost use Rattle.role_steps.specs.Adoption.{table_group};
ghost use Rattle.role_steps.specs.Tables.{row, without_row};
ghost use Rattle.keyed_tables.specs.Rising.{Rising};

use css_core::Css;
use keyed_tables::SortedTable;

/// Takes the table of a group out.
pub(crate) fn take_table(tables: &mut SortedTable<Css>, group: u8) -> Option<Css>
    ensures table { result ≡ row table_group group tables.old }
    ensures left { tables.new ≡ without_row table_group group tables.old }
    ensures rising { Rising table_group tables.old }
{
    let _rows = tables.as_slice();
    tables.remove(u64::from(group))
}
