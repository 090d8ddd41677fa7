ghost use Rattle.std.specs.Prelude.{◌≡◌, true, filter};
ghost use Rattle.std.specs.Option.{option_copied, is_some};
ghost use Rattle.std.specs.List.{list_any};
ghost use Rattle.role_steps.specs.Mends.{is_dir};
ghost use Rattle.role_steps.specs.Versions.{file_row};
ghost use Rattle.role_steps.specs.Views.{serial_key};
ghost use Rattle.role_steps.specs.Opens.{open_row, is_open_on};
ghost use Rattle.role_steps.specs.Reports.{new_table};
ghost use Rattle.role_steps.specs.declared.synchronizing.FileRow.{FileRow};
ghost use Rattle.role_steps.specs.declared.synchronizing.OpenRow.{OpenRow};
ghost use Rattle.css_versions.specs.Lists.{found_rows};
ghost use Rattle.trace_book.specs.Same.{same_serial};

use crate::looks::LookRow;
use css_opens::Opens;
use css_versions::{Files, KnownFile, Listed};
use keyed_tables::{Keyed, SortedTable};
use locus_ids::{FileId, Serial, Sites};
use role_steps::Earlies;
use std::alloc::Global;
use std::marker::Model;

/// The synchronization site of a group, seen as its table.
pub struct Css {
    pub(crate) group: u8,
    pub(crate) reported: Sites,
    pub(crate) started: bool,
    pub(crate) early: Earlies,
    pub(crate) files: Files,
    pub(crate) opens: Opens,
    pub(crate) looks: SortedTable<LookRow>,
}

// Taken apart in one place: where a site is dropped, the prover sees one call.
impl Drop for Css {
    fn drop(self) {
        let Css {
            group: _,
            reported: _,
            started: _,
            early: _,
            files: _,
            opens: _,
            looks: _,
        } = self;
    }
}

impl Model for Css {
    ghost use Rattle.role_steps.specs.declared.synchronizing.SyncTable.{SyncTable};

    ghost Value = { SyncTable };

    ghost view = { λ t. record { group = t.group; reported = t.reported; started = t.started; early = t.early; files = t.files; opens = t.opens; looks = t.looks } };
}

impl Keyed for Css {
    ghost use Rattle.role_steps.specs.Adoption.{table_group};

    ghost key = { table_group };

    fn key(&self) -> u64 {
        u64::from(self.group)
    }
}

impl Css {
    /// The table of a group in a new epoch.
    pub fn new(alloc: Global, group: u8) -> Css
        ensures { result ≡ new_table group }
    {
        Css {
            group,
            reported: Sites(0),
            started: false,
            early: Earlies::new(alloc),
            files: Files::new(alloc),
            opens: Opens::new(alloc),
            looks: SortedTable::new(alloc),
        }
    }

    pub fn group(&self) -> u8
        ensures { result ≡ self.now.group }
    {
        self.group
    }

    /// All members that have a pack of the group have reported.
    pub fn started(&self) -> bool
        ensures { result ≡ self.now.started }
    {
        self.started
    }

    /// The files of the group, the one of the least inode first.
    pub fn files(&self) -> &[KnownFile]
        ensures { result.now ≡ self.now.files }
    {
        self.files.as_slice()
    }

    /// The directories of the group, the one of the least inode first.
    pub fn directories(&self) -> &[Listed]
        ensures { found_rows self.now.files result.now ≡ filter (λ (r : FileRow). is_dir r.kind) self.now.files }
    {
        self.files.directories()
    }

    /// What is known of a file.
    pub fn file(&self, ino: u16) -> Option<&KnownFile>
        ensures { option_copied result ≡ file_row self.now ino }
    {
        self.files.find(ino)
    }

    /// The group was asked for this instance.
    pub fn has_open(&self, inst: Serial) -> bool
        ensures { result ≡ is_some (open_row self.now inst) }
    {
        self.opens.find(inst).is_some()
    }

    /// The group was asked for an instance of this name, each being told by its two numbers.
    pub fn is_opened(&self, inst: Serial) -> bool
        ensures { result ≡ list_any (λ (r : OpenRow). same_serial r.inst inst) self.now.opens }
    {
        match self.opens.find(inst) {
            Some(entry) => is_named(entry.inst(), inst),
            None => false,
        }
    }

    /// An instance of the file is open.
    pub fn is_open(&self, file: FileId) -> bool
        ensures { result ≡ list_any (is_open_on file) self.now.opens }
    {
        self.opens.is_open(file)
    }
}

/// An instance that has the key of a name has the name.
fn is_named(found: Serial, inst: Serial) -> bool
    requires { serial_key found ≡ serial_key inst }
    ensures same { result ≡ same_serial found inst }
    ensures named { result ≡ true }
{
    let (found_site, site) = (found.us, inst.us);
    found_site == site && found.serial == inst.serial
}
