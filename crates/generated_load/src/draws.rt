ghost use Rattle.std.specs.Prelude.{◌≡◌, ◌≤◌, ◌<◌, ◌+◌, ◌%◌};
ghost use Rattle.locus_ids.specs.Sizes.{sites_max};
ghost use Rattle.generated_load.specs.Draws.{draw, drawn_of};

use locus_ids::SiteId;
use rand_core::utils::NextWord;
use rand_pcg::Pcg32;

/// What an event of the load is drawn from.
#[derive(Clone, Copy)]
pub(crate) struct Draw {
    /// The kind of event, of 16.
    pub what: u8,
    pub site: SiteId,
    /// The file, of 8.
    pub name: u8,
}

/// The next draw takes three words.
pub(crate) fn next_draw(generator: &mut Pcg32) -> Draw
    ensures drawn { drawn_of result ≡ (draw generator.old).0 }
    ensures after { generator.new ≡ (draw generator.old).1 }
    ensures few { result.name < 8 }
{
    let kind = generator.next_word();
    let site = generator.next_word();
    let name = generator.next_word();
    Draw {
        what: (kind % 16) as u8,
        site: site_of(site),
        name: (name % 8) as u8,
    }
}

/// One of the three sites, by the rest of a number.
pub(crate) fn site_of(number: u32) -> SiteId
    ensures { result ≡ number % 3 + 1 }
{
    numbered((number % 3) as u8 + 1)
}

/// The site of this number.
pub(crate) fn numbered(number: u8) -> SiteId
    requires low { 1 ≤ number }
    requires high { number ≤ sites_max }
    ensures { result ≡ number }
{
    SiteId::new(number).unwrap()
}
