ghost use Rattle.std.specs.Prelude.{◌≡◌};
ghost use Rattle.site_label.specs.Label.{half_at, half_bytes, other_half};

use locus_ids::SiteId;

/// One of the two halves of a label.
#[derive(Clone, Copy, PartialEq, Eq)]
pub(crate) enum Half {
    First,
    Second,
}

impl Half {
    /// Where it begins.
    pub fn at(self) -> u32
        ensures { result ≡ half_at self }
    {
        match self {
            Half::First => 0,
            Half::Second => 512,
        }
    }

    /// The other half.
    pub fn other(self) -> Half
        ensures { result ≡ other_half self }
    {
        match self {
            Half::First => Half::Second,
            Half::Second => Half::First,
        }
    }
}

/// The bytes of an open half with this boot number.
pub(crate) fn half_bytes(site: SiteId, boot: u32) -> [u8; 512]
    ensures { result ≡ half_bytes site boot }
{
    let mut bytes = [0; 512];
    bytes[0] = 0xA5;
    bytes[1..9].copy_from_slice(b"LOCUSLB1");
    bytes[9] = site.get();
    bytes[10..14].copy_from_slice(&boot.to_be_bytes());
    bytes
}
