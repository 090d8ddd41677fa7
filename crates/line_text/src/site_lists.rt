// Lists of sites.
ghost use Rattle.std.specs.Prelude.{◌≡◌, ◌≤◌, min};
ghost use Rattle.locus_ids.specs.Sizes.{sites_max};
ghost use Rattle.line_text.specs.Words.{number_in, sites_in};

use crate::numbers::small_number;
use crate::words::split_at;
use locus_ids::sizes::SITES;
use locus_ids::{SiteId, Sites};

/// The set of the sites that stand here, ascending, with the separator between each two, in a cluster of n sites.
pub(crate) fn site_list(bytes: &[u8], separator: u8, n: u8) -> Option<Sites>
    ensures { result ≡ sites_in n separator bytes.now }
{
    let mut set = Sites(0);
    let mut least = 1;
    let mut rest = bytes;
    while let Some((word, more)) = split_at(rest, separator) {
        let site = site_from(word, least, n)?;
        set = set.with(site);
        least = site.get() + 1;
        rest = more;
    }
    let site = site_from(rest, least, n)?;
    Some(set.with(site))
}

/// The site from `least` on that the word is.
fn site_from(word: &[u8], least: u8, n: u8) -> Option<SiteId>
    requires { 1 ≤ least }
    ensures { result ≡ number_in least (min n sites_max) word.now }
{
    let number = small_number(word, least, n.min(SITES as u8))?;
    SiteId::new(number)
}
