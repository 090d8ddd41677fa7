ghost use Rattle.std.specs.Prelude.{◌≡◌, ◌≤◌, ◌<◌, ◌++◌, [], ◌∷◌, length, map, filter, not, IfSome, IfOk, OnOk};
ghost use Rattle.std.specs.List.{find, list_all};
ghost use Rattle.std.specs.Option.{option_copied};
ghost use Rattle.locus_ids.specs.Sizes.{sites_max, file_bytes_max};
ghost use Rattle.file_content.specs.Pages.{pages_of};
ghost use Rattle.commit_graph.specs.Versions.{is_version, is_in, content_of, is_ancestor, is_proper_ancestor, is_covered, kept};
ghost use Rattle.commit_graph.specs.Counters.{counter, greatest, next_number};
ghost use Rattle.commit_graph.specs.Vectors.{vector_of};
ghost use Rattle.written_vectors.specs.Counting.{counter_on};
ghost use Rattle.audit_versions.specs.Regular.{is_regular, has_file, stands_on, is_rooted, is_formatted, is_numbered};
ghost use Rattle.audit_versions.specs.Keeping.{kept_with};
ghost use Rattle.audit_versions.specs.Tables.{counts_on, name_of, file_of};

use crate::stamps::{
    are_in_order, copy_of, insert_stamp, is_formatted, is_none_of, is_same, tops_of,
};
use commit_graph::{History, Version};
use file_content::pages_of;
use key_places::{Places, file_key, version_key};
use locus_ids::sizes::SITES;
use locus_ids::{FileId, NoMemory, Stamp, Stamps};
use std::alloc::Global;
use std::marker::Model;
use version_vector::Vector;

/// No site, and all sites that there may be.
pub(crate) const COUNTERS: usize = 17;

/// A history grows up to this.
const MOST: usize = 4_294_967_294;

/// The versions, and beside them the places of their names and files and the counters of each.
#[derive(Drop)]
struct Rows {
    history: History,
    counts: Vec<[u32; 17]>,
    names: Places,
    files: Places,
}

impl Rows {
    fn new(alloc: Global) -> Rows
        ensures history { result.history ≡ [] }
        ensures counts { result.counts.items ≡ [] }
        ensures names { result.names ≡ [] }
        ensures files { result.files ≡ [] }
    {
        Rows {
            history: History::new(alloc),
            counts: Vec::new(alloc),
            names: Places::new(alloc),
            files: Places::new(alloc),
        }
    }

    fn grow(&mut self, version: Version, counts: [u32; 17]) -> Result<(), NoMemory>
        ensures history { OnOk result (self.new.history ≡ version ∷ self.old.history) }
        ensures counts { OnOk result (self.new.counts.items ≡ self.old.counts.items ++ counts ∷ []) }
        ensures names { OnOk result (self.new.names ≡ name_of version ∷ self.old.names) }
        ensures files { OnOk result (self.new.files ≡ file_of version ∷ self.old.files) }
    {
        self.names.push(version_key(version.file, version.stamp))?;
        self.files.push(file_key(version.file))?;
        self.counts.push(counts)?;
        self.history.push(version)?;
        Ok(())
    }
}

/// The versions of all files, which contracts see as a list with the newest first.
pub struct Versions {
    rows: Rows,
    regular: bool,
}

// Taken apart in one place: where a table is dropped, the prover sees one call.
impl Drop for Versions {
    fn drop(self) {
        let Versions {
            rows: _,
            regular: _,
        } = self;
    }
}

impl Model for Versions {
    ghost use Rattle.std.specs.Prelude.{List};
    ghost use Rattle.commit_graph.specs.declared.history.Version.{Version};

    ghost Value = { List Version };

    ghost use Rattle.audit_versions.specs.Tables.{Agree};

    ghost view = { λ v. v.rows.history };

    ghost invariant = { λ v. Agree v.rows.history v.rows.counts.items v.rows.names v.rows.files v.regular };
}

impl Versions {
    /// No versions. What is taken later comes from this allocator.
    pub fn new(alloc: Global) -> Versions
        ensures { result ≡ [] }
    {
        Versions {
            rows: Rows::new(alloc),
            regular: true,
        }
    }

    /// The history is regular: vectors tell ancestors.
    pub fn is_regular(&self) -> bool
        ensures { result ≡ is_regular self.now }
    {
        self.regular
    }

    /// The file has a version with this stamp.
    pub fn has(&self, file: FileId, stamp: Stamp) -> bool
        ensures { result ≡ is_in self.now file stamp }
    {
        self.rows.names.place(&version_key(file, stamp)).is_some()
    }

    /// The newest version of the file with this stamp.
    pub fn version(&self, file: FileId, stamp: Stamp) -> Option<&Version>
        ensures value { option_copied result ≡ find (is_version file stamp) self.now }
        ensures short { IfSome result (λ version. length version.now.content ≤ file_bytes_max) }
    {
        match self.rows.names.place(&version_key(file, stamp)) {
            Some(place) => self.rows.history.get(place),
            None => None,
        }
    }

    /// The content of the version with this stamp, or no bytes.
    pub fn content(&self, file: FileId, stamp: Stamp) -> &[u8]
        ensures value { result.now ≡ content_of self.now file stamp }
        ensures short { length result.now ≤ file_bytes_max }
    {
        match self.version(file, stamp) {
            Some(version) => version.content.as_slice(),
            None => &[],
        }
    }

    /// How many pages that content takes.
    pub fn pages(&self, file: FileId, stamp: Stamp) -> usize
        ensures { result ≡ pages_of (length (content_of self.now file stamp)) }
    {
        pages_of(self.content(file, stamp).len())
    }

    /// The counter of a site in the version with this stamp, or 0.
    pub fn counter(&self, file: FileId, stamp: Stamp, site: u8) -> u32
        ensures value { result ≡ counter self.now file stamp site }
        ensures few { result ≤ length self.now }
        ensures room { length self.now < 4294967295 }
    {
        let site = usize::from(site);
        let counts = self.rows.counts.as_slice();
        match self.rows.names.place(&version_key(file, stamp)) {
            Some(place) if site < COUNTERS => counts[place][site],
            Some(_) => 0,
            None => 0,
        }
    }

    /// The written vector of the version with this stamp, or zeros.
    pub fn vector(&self, file: FileId, stamp: Stamp) -> Vector<SITES>
        ensures { result ≡ vector_of self.now file stamp }
    {
        let mut parts = [0; SITES];
        for place in 0..SITES {
            parts[place] = self.counter(file, stamp, place as u8 + 1);
        }
        Vector::from_parts(parts)
    }

    /// The greatest counter of a site in versions of the file.
    fn greatest(&self, file: FileId, stamps: &[Stamp], site: u8) -> u32
        ensures value { result ≡ greatest (λ p. counter self.now file p site) stamps.now }
        ensures room { result < 4294967295 }
    {
        let mut most = 0;
        for stamp in stamps {
            let n = self.counter(file, *stamp, site);
            if most < n {
                most = n;
            }
        }
        most
    }

    /// The number of the next version of the file that the site commits on these parents.
    pub fn next_number(&self, file: FileId, parents: &[Stamp], site: u8) -> u64
        ensures { result ≡ next_number self.now file parents.now site }
    {
        u64::from(self.greatest(file, parents, site)) + 1
    }

    /// The counter of a site in a version that stands on these.
    fn count_on(&self, version: &Version, site: u8) -> u32
        ensures { result ≡ counter_on self.now version.now.file site version.now }
    {
        let most = self.greatest(version.file, version.parents.as_slice(), site);
        if version.site == site { most + 1 } else { most }
    }

    /// The counters of a version that stands on these.
    fn counts_on(&self, version: &Version) -> [u32; 17]
        ensures { result ≡ counts_on self.now version.now }
    {
        let mut parts = [0; COUNTERS];
        for place in 0..COUNTERS {
            parts[place] = self.count_on(version, place as u8);
        }
        parts
    }

    /// The file has a version.
    fn has_file(&self, file: FileId) -> bool
        ensures { result ≡ has_file self.now file }
    {
        self.rows.files.place(&file_key(file)).is_some()
    }

    /// The file has each of these versions.
    pub fn has_all(&self, file: FileId, stamps: &[Stamp]) -> bool
        ensures { result ≡ list_all (is_in self.now file) stamps.now }
    {
        stamps.iter().all(|stamp| self.has(file, *stamp))
    }

    fn is_rooted(&self, version: &Version) -> bool
        ensures { result ≡ is_rooted self.now version.now }
    {
        if self.has_file(version.file) {
            !is_none_of(version.parents.as_slice())
        } else {
            is_none_of(version.parents.as_slice())
        }
    }

    fn is_numbered(&self, version: &Version) -> bool
        ensures { result ≡ is_numbered self.now version.now }
    {
        1 <= version.site
            && version.site <= SITES as u8
            && u64::from(version.stamp.n)
                == self.next_number(version.file, version.parents.as_slice(), version.site)
    }

    /// A version stands on these as it should.
    fn stands_on(&self, version: &Version) -> bool
        ensures { result ≡ stands_on self.now version.now }
    {
        self.has_all(version.file, version.parents.as_slice())
            && self.is_rooted(version)
            && !self.has(version.file, version.stamp)
            && version.stamp.site == version.site
            && (is_formatted(version) || self.is_numbered(version))
    }

    /// The history stays regular with this version.
    fn is_regular_with(&self, version: &Version) -> bool
        ensures { result ≡ is_regular (version.now ∷ self.now) }
    {
        self.is_regular() && self.stands_on(version)
    }

    /// One more version, the newest. After `NoMemory`, which also says that there are too many, all versions are gone.
    pub fn push(&mut self, version: Version) -> Result<(), NoMemory>
        requires sited { version.site ≤ sites_max }
        requires short { length version.content ≤ file_bytes_max }
        ensures { OnOk result (self.new ≡ version ∷ self.old) }
    {
        if self.rows.history.len() >= MOST {
            return Err(NoMemory);
        }
        let counts = self.counts_on(&version);
        let regular = self.is_regular_with(&version);
        let alloc = *self.rows.counts.allocator();
        match self.rows.grow(version, counts) {
            Ok(()) => {
                self.regular = regular;
                Ok(())
            }
            Err(fault) => {
                self.rows = Rows::new(alloc);
                self.regular = true;
                Err(fault)
            }
        }
    }

    /// Whether `a` is `b` or an ancestor of it.
    pub fn is_ancestor(&self, file: FileId, a: Stamp, b: Stamp) -> Result<bool, NoMemory>
        ensures { IfOk result (λ yes. yes ≡ is_ancestor self.now file a b) }
    {
        if !self.regular {
            let alloc = *self.rows.counts.allocator();
            return commit_graph::is_ancestor(alloc, &self.rows.history, file, a, b);
        }
        if !self.has(file, b) {
            return Ok(is_same(a, b));
        }
        Ok(self.has(file, a) && a.n <= self.counter(file, b, a.site))
    }

    /// Whether `a` is an ancestor of `b`, and another version.
    pub fn is_proper_ancestor(&self, file: FileId, a: Stamp, b: Stamp) -> Result<bool, NoMemory>
        ensures { IfOk result (λ yes. yes ≡ is_proper_ancestor self.now file a b) }
    {
        if is_same(a, b) {
            return Ok(false);
        }
        self.is_ancestor(file, a, b)
    }

    /// One of these is a proper descendant of the stamp.
    fn is_covered(&self, file: FileId, brought: &[Stamp], a: Stamp) -> Result<bool, NoMemory>
        ensures { IfOk result (λ yes. yes ≡ is_covered self.now file brought.now a) }
    {
        for stamp in brought {
            if self.is_proper_ancestor(file, a, *stamp)? {
                return Ok(true);
            }
        }
        Ok(false)
    }

    /// Those of the stamps that are no proper ancestor of another of them, in their order. Of stamps in order only the last
    /// of each site is tested, where the history is regular.
    pub fn kept(&self, file: FileId, brought: &[Stamp]) -> Result<Stamps, NoMemory>
        ensures { IfOk result (λ made. made ≡ kept self.now file brought.now) }
    {
        if self.regular && are_in_order(brought) {
            let tops = tops_of(*self.rows.counts.allocator(), brought)?;
            if self.has_all(file, tops.as_slice()) {
                return self.kept_of(file, tops.as_slice());
            }
        }
        self.kept_of(file, brought)
    }

    /// The same by a test of each against each.
    fn kept_of(&self, file: FileId, brought: &[Stamp]) -> Result<Stamps, NoMemory>
        ensures { IfOk result (λ made. made ≡ kept self.now file brought.now) }
    {
        let mut made = Stamps::new(*self.rows.counts.allocator());
        for stamp in brought {
            if !self.is_covered(file, brought, *stamp)? {
                made.push(*stamp)?;
            }
        }
        Ok(made)
    }

    /// Those that are no proper ancestor of this one, in their order.
    fn beside(&self, file: FileId, kept: &[Stamp], new: Stamp) -> Result<Stamps, NoMemory>
        ensures { IfOk result (λ made. made ≡ filter (λ k. not (is_proper_ancestor self.now file k new)) kept.now) }
    {
        let mut made = Stamps::new(*self.rows.counts.allocator());
        for stamp in kept {
            if !self.is_proper_ancestor(file, *stamp, new)? {
                made.push(*stamp)?;
            }
        }
        Ok(made)
    }

    /// The kept ones when one more comes, by tests against the kept ones alone.
    pub fn kept_with(&self, file: FileId, kept: &[Stamp], new: Stamp) -> Result<Stamps, NoMemory>
        ensures { IfOk result (λ made. made ≡ kept_with self.now file kept.now new) }
    {
        if self.is_covered(file, kept, new)? {
            return copy_of(*self.rows.counts.allocator(), kept);
        }
        let mut made = self.beside(file, kept, new)?;
        insert_stamp(&mut made, new)?;
        Ok(made)
    }
}
