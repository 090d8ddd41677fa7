ghost use Rattle.std.specs.Prelude.{◌≡◌, Option};
ghost use Rattle.commit_graph.specs.Versions.{same_stamp};
ghost use Rattle.role_steps.specs.Adoption.{fits_own, is_above_own};
ghost use Rattle.role_steps.specs.Versions.{is_below};
ghost use Rattle.role_steps.specs.declared.copies.FileCopy.{FileCopy};
ghost use Rattle.propagation.specs.Sized.{head_of, is_over_head, pages_in_head};

use file_content::pages_of;
use locus_ids::Stamp;
use locus_ids::sizes::SITES;
use role_steps::Pull;
use version_vector::{Ordering4, Vector};

/// The version that the site has of a file, without its content.
#[derive(Clone, Copy)]
pub struct CopyHead {
    pub stamp: Stamp,
    pub vector: Vector<SITES>,
    /// The size of its content in bytes.
    pub size: u32,
}

/// Two stamps name one version of a file.
pub fn same_stamp(a: Stamp, b: Stamp) -> bool
    ensures { result ≡ same_stamp a b }
{
    a.site == b.site && a.n == b.n
}

/// How many pages the own copy has.
pub fn pages_in(own: &Option<CopyHead>) -> usize
    ensures { result ≡ pages_in_head own.now }
{
    match own {
        Some(own) => pages_of(own.size as usize),
        None => 0,
    }
}

/// The pull is over just this copy, or over none where there is none.
pub fn is_over(own: &Option<CopyHead>, base: Option<Stamp>) -> bool
    ensures { result ≡ is_over_head own.now base }
{
    match (own, base) {
        (None, None) => true,
        (Some(own), Some(base)) => same_stamp(own.stamp, base),
        _ => false,
    }
}

/// Each counter is at most the other's, and they differ.
pub fn is_below(a: &Vector<SITES>, b: &Vector<SITES>) -> bool
    ensures { result ≡ is_below a.now b.now }
{
    match a.compare(b) {
        Ordering4::Below => true,
        Ordering4::Same | Ordering4::Above | Ordering4::Beside => false,
    }
}

/// The copy over which the version was pulled is still there, or there is still none, and the version is above it: then it may be
/// adopted.
#[tactic(auto, using(crate::proofs::Sizes::over_head))]
pub fn fits_own(pull: &Pull, own: Option<CopyHead>) -> bool
    ensures { (copy : Option FileCopy) → head_of copy ≡ own → result ≡ fits_own pull.now copy }
{
    is_over(&own, pull.base) && is_above_own(pull, &own)
}

/// The pulled version is above the one that the site has of its file, or the site has none.
fn is_above_own(pull: &Pull, own: &Option<CopyHead>) -> bool
    ensures { (copy : Option FileCopy) → head_of copy ≡ own.now → result ≡ is_above_own pull.now copy }
{
    match own {
        None => true,
        Some(own) => is_below(&own.vector, &pull.vector),
    }
}
