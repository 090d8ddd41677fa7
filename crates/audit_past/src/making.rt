ghost use Rattle.std.specs.Prelude.{◌≡◌, Some, IfSome};
ghost use Rattle.std.specs.List.{find};
ghost use Rattle.std.specs.Option.{option_copied};
ghost use Rattle.tree_model.specs.Files.{kind_made};
ghost use Rattle.promises.specs.Past.{Epoch, Instance, is_writer, site_at};
ghost use Rattle.promises.specs.After.{is_home_of, is_id};
ghost use Rattle.audit_past.specs.Writing.{IsSaid, made_by};

use crate::Told;
use audit_calls::CallRow;
use audit_epochs::EpochRow;
use audit_epochs::audit_instances::InstanceRow;
use audit_sites::MakingRow;
use locus_ids::{Config, FileId, Kind, Mode};
use trace_book::Call;
use tree_tables::{packs_of, sites_made};

impl Told {
    /// What the call said of the file whose instance at the site is written, in the epoch that the site is in.
    pub(crate) fn making(&self, config: &Config, file: FileId, site: u8) -> Option<MakingRow>
        ensures { IfSome result (IsSaid self.now config.now file site) }
    {
        let home = self.sites.site_at(site).epoch();
        let row = self.epochs.home(home)?;
        let writer = writer_in(row, file, site)?;
        let call = self.calls.find(writer.grant().call)?;
        Some(making_by(config, file, call))
    }
}

/// The first open instance by which the file may be committed at the site.
fn writer_in(row: &EpochRow, file: FileId, site: u8) -> Option<&InstanceRow>
    ensures { option_copied result ≡ find (is_writer file site) row.now.opened }
{
    row.opened()
        .as_slice()
        .iter()
        .find(|x| is_writer(x, file, site))
}

fn is_writer(row: &InstanceRow, file: FileId, site: u8) -> bool
    ensures { result ≡ is_writer file site row.now }
{
    row.grant().file == file && (row.grant().ss == site && !matches!(row.grant().mode, Mode::Read))
}

/// What a call says of the file that it makes.
fn making_by(config: &Config, file: FileId, call: &CallRow) -> MakingRow
    ensures { result ≡ made_by config.now file call.now }
{
    let words = call.words();
    MakingRow {
        file,
        kind: kind_made(words),
        set: sites_made(packs_of(config, file.group), Some(words)),
    }
}

fn kind_made(words: &Call) -> Kind
    ensures { result ≡ kind_made (Some words.now) }
{
    match words {
        Call::MakeDir { path: _ } => Kind::Dir,
        _ => Kind::File,
    }
}
