ghost use Rattle.std.specs.Prelude.{◌≡◌, ◌≤◌, ℕ, List, [], ◌∷◌, ◌++◌, length, drop, not, insert, IfSome, None, IfOk, OnOk, OnErr};
ghost use Rattle.std.specs.List.{list_any};
ghost use Rattle.locus_ids.specs.declared.ids.Stamp.{Stamp};
ghost use Rattle.commit_graph.specs.Versions.{same_stamp, is_stamp_below, with_stamp};
ghost use Rattle.conflict_flags.specs.Copies.{is_below, is_maximal, tops, with_held, maxima, two_beside, least_of, stamps_of};

use locus_ids::sizes::SITES;
use locus_ids::{ItemList, NoMemory, Stamp};
use std::alloc::Global;
use version_vector::{Ordering4, Vector};

/// The copy of one file that a site holds.
#[derive(Clone, Copy, PartialEq, Eq)]
pub struct Held {
    pub site: u8,
    pub stamp: Stamp,
    pub vector: Vector<SITES>,
}

/// Copies of one file.
pub type HeldList = ItemList<Held>;

/// The copies whose vector is below no other's, one of each version, ascending by stamp.
/// Of several of one version it is the last of the list.
pub fn maxima(l: &HeldList) -> Result<HeldList, NoMemory>
    ensures { IfOk result (λ made. made ≡ maxima l.now) }
{
    maxima_of(l.allocator(), l.as_slice())
}

/// The two least stamps of maximal copies, or `None` exactly where at most one stamp is maximal.
pub fn two_beside(l: &HeldList) -> Option<(Stamp, Stamp)>
    ensures { result ≡ two_beside l.now }
{
    match least_maxima(l.as_slice()) {
        Least::Two(a, b) => Some((a, b)),
        Least::One(_) => None,
        Least::Nothing => None,
    }
}

/// What an ascending list of stamps begins with.
#[derive(Clone, Copy)]
enum Least {
    Nothing,
    One(Stamp),
    Two(Stamp, Stamp),
}

impl Least {
    /// What the list begins with when a stamp has come in.
    fn with(self, s: Stamp) -> Least
        ensures { (ts : List Stamp) → self ≡ least_of ts → result ≡ least_of (with_stamp s ts) }
    {
        match self {
            Least::Nothing => Least::One(s),
            Least::One(a) if is_stamp_below(s, a) => Least::Two(s, a),
            Least::One(a) if is_same(s, a) => self,
            Least::One(a) => Least::Two(a, s),
            Least::Two(a, _) if is_stamp_below(s, a) => Least::Two(s, a),
            Least::Two(a, _) if is_same(s, a) => self,
            Least::Two(a, b) if is_stamp_below(s, b) => Least::Two(a, s),
            Least::Two(_, _) => self,
        }
    }
}

fn least_maxima(all: &[Held]) -> Least
    ensures { result ≡ least_of (stamps_of (maxima all.now)) }
{
    let mut least = Least::Nothing;
    let mut left = all.len();
    while left > 0 {
        left -= 1;
        let copy = &all[left];
        if is_maximal(all, copy) {
            least = least.with(copy.stamp);
        }
    }
    least
}

pub(crate) fn maxima_of(alloc: Global, all: &[Held]) -> Result<HeldList, NoMemory>
    ensures { IfOk result (λ made. made ≡ maxima all.now) }
{
    let mut made = HeldList::new(alloc);
    let mut left = all.len();
    while left > 0 {
        left -= 1;
        let held = &all[left];
        if is_maximal(all, held) {
            insert_held(&mut made, *held)?;
        }
    }
    Ok(made)
}

/// Brings a copy to its place in a list that ascends by stamp, unless its version is there.
fn insert_held(made: &mut HeldList, held: Held) -> Result<(), NoMemory>
    ensures ok { OnOk result (made.new ≡ with_held held made.old) }
    ensures err { OnErr result (made.new ≡ made.old) }
{
    match place_of(made.as_slice(), &held) {
        Some(at) => made.insert(at, held),
        None => Ok(()),
    }
}

/// Where a copy comes into a list that ascends by stamp, or `None` where its version is there.
fn place_of(made: &[Held], held: &Held) -> Option<usize>
    ensures some { IfSome result (λ at. (at ≤ length made.now) × (insert made.now at held.now ≡ with_held held.now made.now)) }
    ensures none { result ≡ None → with_held held.now made.now ≡ made.now }
{
    for at in 0..made.len() {
        let other = made[at].stamp;
        if is_stamp_below(held.stamp, other) {
            return Some(at);
        }
        if is_same(held.stamp, other) {
            return None;
        }
    }
    Some(made.len())
}

pub(crate) fn is_maximal(all: &[Held], held: &Held) -> bool
    ensures { result ≡ is_maximal all.now held.now }
{
    !is_some_above(all, held)
}

fn is_some_above(all: &[Held], held: &Held) -> bool
    ensures { result ≡ list_any (λ d. is_below held.now.vector d.vector) all.now }
{
    all.iter().any(|other| is_above(other, held))
}

fn is_above(other: &Held, held: &Held) -> bool
    ensures { result ≡ is_below held.now.vector other.now.vector }
{
    is_below(&held.vector, &other.vector)
}

pub(crate) fn is_below(low: &Vector<SITES>, high: &Vector<SITES>) -> bool
    ensures { result ≡ is_below low.now high.now }
{
    low.compare(high) == Ordering4::Below
}

fn is_same(a: Stamp, b: Stamp) -> bool
    ensures { result ≡ same_stamp a b }
{
    a == b
}

fn is_stamp_below(a: Stamp, b: Stamp) -> bool
    ensures { result ≡ is_stamp_below a b }
{
    a.site < b.site || (a.site == b.site && a.n < b.n)
}
