ghost use Rattle.std.specs.Prelude.{◌≡◌};
ghost use Rattle.version_vector.specs.Counters.{AllLe, joined};

use crate::Vector;

/// 'Each counter is at most the other's' is a partial order.
pub fn vectors_are_ordered<const N: usize>(a: &Vector<N>, b: &Vector<N>, c: &Vector<N>)
    ensures reflexive { AllLe a.now a.now }
    ensures antisymmetric { AllLe a.now b.now → AllLe b.now a.now → a.now ≡ b.now }
    ensures transitive { AllLe a.now b.now → AllLe b.now c.now → AllLe a.now c.now }
{
    let _a = a.parts();
    let _b = b.parts();
    let _c = c;
}

/// The order and the sequence in which vectors are joined, and how often each is, make no difference.
pub fn joins_are_maxima<const N: usize>(a: &Vector<N>, b: &Vector<N>, c: &Vector<N>)
    ensures commutative { joined a.now b.now ≡ joined b.now a.now }
    ensures associative { joined (joined a.now b.now) c.now ≡ joined a.now (joined b.now c.now) }
    ensures idempotent { joined a.now a.now ≡ a.now }
{}
