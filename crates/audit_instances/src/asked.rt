//! What is asked of the open instances of an epoch.

ghost use Rattle.std.specs.Prelude.{◌≡◌, ◌-◌};
ghost use Rattle.std.specs.List.{find, list_any};
ghost use Rattle.std.specs.Option.{option_copied};
ghost use Rattle.audit_instances.specs.Rows.{is_at, is_of, is_open_by, is_stored_at, pages_changed};

use crate::{InstanceRow, Instances};
use locus_ids::{CallId, FileId};

impl Instances {
    /// The instance by which the call has the file open.
    pub fn target(&self, call: CallId, file: FileId) -> Option<&InstanceRow>
        ensures { option_copied result ≡ find (is_open_by call file) self.now }
    {
        self.as_slice()
            .iter()
            .find(|row| is_open_by(row, call, file))
    }

    /// Some instance has the file open.
    pub fn is_open(&self, file: FileId) -> bool
        ensures { result ≡ list_any (is_of file) self.now }
    {
        self.as_slice().iter().any(|row| row.grant().file == file)
    }

    /// Some instance has the file open at this storage site.
    pub fn is_open_at(&self, site: u8, file: FileId) -> bool
        ensures { result ≡ list_any (is_at site file) self.now }
    {
        self.as_slice().iter().any(|row| is_at(row, site, file))
    }

    /// These pages, less the changed ones of the instances of the group at this storage site.
    pub fn less_changed(&self, group: u8, site: u8, pages: usize) -> usize
        ensures { result ≡ pages - pages_changed self.now group site }
    {
        less_changed(self.as_slice(), group, site, pages)
    }
}

fn is_open_by(row: &InstanceRow, call: CallId, file: FileId) -> bool
    ensures { result ≡ is_open_by call file row.now }
{
    row.grant().call == call && row.grant().file == file
}

fn is_at(row: &InstanceRow, site: u8, file: FileId) -> bool
    ensures { result ≡ is_at site file row.now }
{
    row.grant().ss == site && row.grant().file == file
}

fn is_stored_at(row: &InstanceRow, group: u8, site: u8) -> bool
    ensures { result ≡ is_stored_at group site row.now }
{
    row.grant().ss == site && row.grant().file.group == group
}

#[tactic(auto, using(crate::proofs::Rooms::less_changed_one))]
fn less_changed(rows: &[InstanceRow], group: u8, site: u8, pages: usize) -> usize
    ensures { result ≡ pages - pages_changed rows.now group site }
{
    let mut left = pages;
    for row in rows {
        if is_stored_at(row, group, site) {
            left = left.saturating_sub(row.work().changed.len());
        }
    }
    left
}
