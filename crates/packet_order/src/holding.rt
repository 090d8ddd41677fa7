ghost use Rattle.std.specs.Prelude.{◌≡◌, [], IfOk};
ghost use Rattle.packet_order.specs.Holding.{parts_in};

use crate::Part;
use locus_ids::NoMemory;
use std::alloc::Global;

/// What was added, one part after the other. Most events give one part, and one takes no memory of its own.
#[derive(Drop)]
pub(crate) enum Parts {
    None,
    One(Part),
    Several(Vec<Part>),
}

/// These parts as a list.
pub(crate) fn listed(alloc: Global, parts: Parts) -> Result<Vec<Part>, NoMemory>
    ensures { IfOk result (λ list. list.items ≡ parts_in parts) }
{
    match parts {
        Parts::None => Ok(Vec::new(alloc)),
        Parts::One(part) => {
            let mut list = Vec::new(alloc);
            list.push(part)?;
            Ok(list)
        }
        Parts::Several(list) => Ok(list),
    }
}
