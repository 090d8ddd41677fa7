ghost use Rattle.std.specs.Prelude.{◌≡◌, Option};
ghost use Rattle.std.specs.Option.{option_copied};
ghost use Rattle.tree_model.specs.Opening.{held_by, is_site, making_set, making_site, resolving_site, words_in};
ghost use Rattle.tree_model.specs.State.{call_in, held_at, is_inside};

use crate::TreeTables;
use locus_ids::{CallId, Sites, Stamp};
use trace_book::Call;
use tree_tables::{call_in, making_site, packs_of, site_named, sites_made};

impl TreeTables {
    /// The site is in the epoch.
    pub fn is_inside(&self, site: u8) -> bool
        ensures { result ≡ is_inside self.now site }
    {
        self.inside.as_slice().contains(&site)
    }

    /// The version that the site had of the inode in the epoch.
    pub fn held_at(&self, site: u8, ino: u16) -> Option<Stamp>
        ensures { result ≡ held_at self.now site ino }
    {
        match self.copies.find(site, ino) {
            Some(copy) => copy.held,
            None => None,
        }
    }

    pub(crate) fn held_by(&self, site: Option<u8>, ino: u16) -> Option<Stamp>
        ensures { result ≡ held_by self.now site ino }
    {
        match site {
            Some(site) => self.held_at(site, ino),
            None => None,
        }
    }

    /// The words of an accepted call.
    fn words_in(&self, call: CallId) -> Option<&Call>
        ensures { option_copied result ≡ words_in self.now call }
    {
        match call_in(self.calls.as_slice(), call) {
            Some(accepted) => Some(&accepted.words),
            None => None,
        }
    }

    /// The site from whose version a call resolves.
    pub(crate) fn resolving_site(&self, call: CallId) -> Option<u8>
        ensures { result ≡ resolving_site self.now call }
    {
        site_named(self.words_in(call))
    }

    /// The sites that the file of a call is for.
    pub(crate) fn making_set(&self, call: CallId) -> Sites
        ensures { result ≡ making_set self.now call }
    {
        let packs = packs_of(&self.config, self.group);
        sites_made(packs, self.words_in(call))
    }

    /// The storage site of the file that a call makes.
    pub(crate) fn making_site(&self, call: CallId) -> Option<u8>
        ensures { result ≡ making_site self.now call }
    {
        let set = self.making_set(call);
        making_site(&self.config, self.group, &self.members, call.site, set)
    }
}

pub(crate) fn is_site(place: Option<u8>, site: u8) -> bool
    ensures { result ≡ is_site place site }
{
    match place {
        Some(place) => place == site,
        None => false,
    }
}
