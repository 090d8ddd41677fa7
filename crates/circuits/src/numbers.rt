ghost use Rattle.std.specs.Prelude.{◌≡◌};
ghost use Rattle.circuits.specs.Circuits.{circuit_of, sender_on, receiver_on};

use locus_ids::SiteId;
use locus_ids::sizes::SITES;

/// The number of the circuit from one site to another, 0 to 255.
pub fn circuit_of(from: SiteId, to: SiteId) -> u8
    ensures { result ≡ circuit_of from to }
{
    SITES as u8 * (from.get() - 1) + (to.get() - 1)
}

/// The site that sends on the circuit of this number.
pub fn sender_on(circuit: u8) -> Option<SiteId>
    ensures { result ≡ Some (sender_on circuit) }
{
    SiteId::new(circuit / SITES as u8 + 1)
}

/// The site that receives on the circuit of this number.
pub fn receiver_on(circuit: u8) -> Option<SiteId>
    ensures { result ≡ Some (receiver_on circuit) }
{
    SiteId::new(circuit % SITES as u8 + 1)
}
