ghost use Rattle.std.specs.Prelude.{◌≡◌, ◌≢◌, ◌-◌, ◌≤◌, IfSome, IfNone};
ghost use Rattle.locus_ids.specs.Sizes.{sites_max};
ghost use Rattle.version_vector.specs.Counters.{part, raised};

use locus_ids::SiteId;
use locus_ids::sizes::SITES;
use version_vector::Vector;

/// The vector of the version that a site makes on one of this vector, in which its counter is one more, or `None` where it can't rise.
pub fn next_vector(vector: &Vector<SITES>, me: SiteId) -> Option<Vector<SITES>>
    ensures some { IfSome result (λ v. v ≡ raised vector.now (me - 1)) }
    ensures risen { IfSome result (λ v. part vector.now (me - 1) ≢ 4294967295) }
    ensures none { IfNone result (part vector.now (me - 1) ≡ 4294967295) }
{
    let _me = me.get();
    match vector.bump(me) {
        Ok(vector) => Some(vector),
        Err(_) => None,
    }
}
