ghost use Rattle.std.specs.Prelude.{◌≡◌, true, ◌↔◌, IfOk, List};
ghost use Rattle.locus_ids.specs.declared.ids.Stamp.{Stamp};
ghost use Rattle.version_vector.specs.Counters.{AllLe};
ghost use Rattle.commit_graph.specs.Versions.{is_in, is_ancestor};
ghost use Rattle.commit_graph.specs.Vectors.{vector_of};
ghost use Rattle.conflict_flags.specs.Written.{NoneTwice};
ghost use Rattle.conflict_flags.specs.Table.{run, start, the_file};

use crate::{CopyTable, vectors_tell_ancestors};
use locus_ids::{NoMemory, SiteId};
use std::alloc::Global;

/// What may happen to a table of copies.
#[derive(Clone, Copy)]
pub enum Event {
    Commit(SiteId),
    /// The first site takes the copy of the second.
    Adopt(SiteId, SiteId),
    Resolve(SiteId),
}

/// The table after these events, where one that is refused changes nothing. No stamp stands twice, and of two
/// versions one is an ancestor of the other exactly where its written vector is at most the other's.
pub fn play(alloc: Global, events: &[Event]) -> Result<CopyTable, NoMemory>
    ensures table { IfOk result (λ t. t ≡ run events.now start) }
    ensures once { IfOk result (λ t. NoneTwice t.history) }
    ensures tell { IfOk result (λ t. (a b : Stamp) → is_in t.history the_file a ≡ true → is_in t.history the_file b ≡ true →
        (is_ancestor t.history the_file a b ≡ true) ↔ AllLe (vector_of t.history the_file a) (vector_of t.history the_file b)) }
{
    let mut table = CopyTable::new(alloc);
    for event in events {
        table.take_event(*event)?;
    }
    vectors_tell_ancestors();
    Ok(table)
}
