use locus_ids::NoMemory;
use thiserror::Error;

/// Why packets aren't brought into their order.
#[derive(Clone, Copy, Debug, Error)]
pub enum OrderFault {
    #[error("no memory")]
    NoMemory,
    /// A field of a packet is not one of its format.
    #[error("no packet of the format")]
    Unfit,
}

impl From<NoMemory> for OrderFault {
    ghost use Rattle.std.specs.Prelude.{◌≡◌};
    ghost use Rattle.packet_order.specs.declared.fault.OrderFault.TheVariants.{NoMemory};

    ghost from_gives = { λ _ fault. fault ≡ NoMemory };

    fn from(_: NoMemory) -> OrderFault {
        OrderFault::NoMemory
    }
}
