ghost use Rattle.std.specs.Prelude.{◌≡◌, [], IfOk};
ghost use Rattle.promises.specs.Past.{kept_in};
ghost use Rattle.audit_acts.specs.Knowing.{knowing, of_history};

use audit_copies::Known;
use audit_versions::Versions;
use locus_ids::{FileId, NoMemory, Stamps};
use std::alloc::Global;

/// The versions of a file that are kept in an epoch that knows these. Where the history is regular and has the last of each
/// site, only these are asked.
pub fn kept_in(alloc: Global, h: &Versions, known: &Known, file: FileId) -> Result<Stamps, NoMemory>
    ensures { IfOk result (λ made. made ≡ kept_in (of_history h.now) (knowing known.now []) file) }
{
    if h.is_regular() && known.are_in_order(file) {
        let tops = known.tops(alloc, file)?;
        if h.has_all(file, tops.as_slice()) {
            return h.kept(file, tops.as_slice());
        }
    }
    let stamps = known.candidates(alloc, file)?;
    h.kept(file, stamps.as_slice())
}
