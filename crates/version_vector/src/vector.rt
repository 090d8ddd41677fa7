ghost use Rattle.std.specs.Prelude.{◌≡◌, ◌-◌, ◌<◌, ◌≤◌, ◌↔◌, List, ℕ, length, max, replicate, IsErr, IfOk};
ghost use Rattle.version_vector.specs.Counters.{part, AllLe, all_le, order_of, joined, raised, Compares};

use locus_ids::SiteId;
use std::marker::Model;

/// How two vectors stand to each other.
#[derive(Clone, Copy, PartialEq, Eq)]
pub enum Ordering4 {
    Same,
    /// Each counter is at most the other's, and one is less.
    Below,
    /// Each counter is at least the other's, and one is greater.
    Above,
    /// One counter is less and another one greater.
    Beside,
}

/// A counter is at its greatest value.
#[derive(Clone, Copy, PartialEq, Eq)]
pub struct Spent;

/// A counter for each of the sites 1 to `N`, which are at most 32. Contracts see their list, and the counter of
/// site s at place s - 1 of it.
#[derive(Clone, Copy, PartialEq, Eq)]
pub struct Vector<const N: usize> {
    n: [u32; N],
}

impl<const N: usize> Model for Vector<N> {
    ghost use Rattle.std.specs.Prelude.{List, ℕ, ◌<◌, ◌≤◌};

    ghost Value = { List ℕ };

    ghost view = { λ v. v.n };

    ghost invariant = { λ v. (0 < N) × (N ≤ 32) };

    ghost inverse = { λ n. record { n = n } };
}

impl<const N: usize> Vector<N> {
    /// All counters at 0.
    pub fn zero() -> Vector<N>
        requires some { 0 < N }
        requires few { N ≤ 32 }
        ensures { result ≡ replicate N 0 }
    {
        Vector { n: [0; N] }
    }

    /// The counters of site 1 to site `N`.
    pub fn from_parts(parts: [u32; N]) -> Vector<N>
        requires some { 0 < N }
        requires few { N ≤ 32 }
        ensures { result ≡ parts.entry }
    {
        Vector { n: parts }
    }

    /// The counters of site 1 to site `N`.
    pub fn parts(&self) -> [u32; N]
        ensures { result ≡ self.now }
    {
        self.n
    }

    /// The counter of a site.
    pub fn part(&self, s: SiteId) -> u32
        requires { s ≤ N }
        ensures { result ≡ part self.now (s - 1) }
    {
        self.n[place_of(s)]
    }

    /// How this vector stands to another.
    pub fn compare(&self, other: &Vector<N>) -> Ordering4
        ensures value { result ≡ order_of self.now other.now }
        ensures meaning { Compares self.now other.now result }
    {
        order(&self.n, &other.n)
    }

    /// Counter by counter the greater, which is the least vector that is not below either.
    pub fn join(&self, other: &Vector<N>) -> Vector<N>
        ensures value { result ≡ joined self.now other.now }
        ensures counters { (place : ℕ) → part result place ≡ max (part self.now place) (part other.now place) }
        ensures left { AllLe self.now result }
        ensures right { AllLe other.now result }
        ensures least { (v : List ℕ) → AllLe self.now v → AllLe other.now v → AllLe result v }
    {
        let mut n = self.n;
        join_into(&mut n, &other.n);
        Vector { n }
    }

    /// The counter of a site raised by one, or `Spent` exactly where it is 4,294,967,295.
    pub fn bump(&self, s: SiteId) -> Result<Vector<N>, Spent>
        requires { s ≤ N }
        ensures ok { IfOk result (λ v. v ≡ raised self.now (s - 1)) }
        ensures spent { IsErr result ↔ (part self.now (s - 1) ≡ 4294967295) }
    {
        let place = place_of(s);
        let mut n = self.n;
        if n[place] == u32::MAX {
            return Err(Spent);
        }
        n[place] += 1;
        Ok(Vector { n })
    }
}

/// Where the counter of a site stands.
fn place_of(s: SiteId) -> usize
    ensures value { result ≡ s - 1 }
    ensures from_one { 1 ≤ s }
{
    (s.get() - 1) as usize
}

fn all_le(a: &[u32], b: &[u32]) -> bool
    requires { length a.now ≡ length b.now }
    ensures { result ≡ all_le a.now b.now }
{
    for i in 0..a.len() {
        if a[i] > b[i] {
            return false;
        }
    }
    true
}

fn join_into(a: &mut [u32], b: &[u32])
    requires { length a.old ≡ length b.now }
    ensures { a.new ≡ joined a.old b.now }
{
    for i in 0..a.len() {
        if b[i] > a[i] {
            a[i] = b[i];
        }
    }
}

fn order(a: &[u32], b: &[u32]) -> Ordering4
    requires { length a.now ≡ length b.now }
    ensures value { result ≡ order_of a.now b.now }
    ensures meaning { Compares a.now b.now result }
{
    let up = all_le(a, b);
    let down = all_le(b, a);
    if up {
        if down {
            Ordering4::Same
        } else {
            Ordering4::Below
        }
    } else if down {
        Ordering4::Above
    } else {
        Ordering4::Beside
    }
}
