ghost use Rattle.std.specs.Prelude.{◌≡◌, map, filter};
ghost use Rattle.std.specs.Option.{option_map};
ghost use Rattle.std.specs.List.{list_any};
ghost use Rattle.commit_graph.specs.Grants.{excludes, excluder, is_read};
ghost use Rattle.css_opens.specs.OpenIndex.{opener_now, is_now_on, busy};
ghost use Rattle.css_opens.specs.declared.now.OpenNow.{OpenNow};

use keyed_tables::Keyed;
use locus_ids::{FileId, Mode, Refusal, SiteId};

/// An open instance as it excludes others, with its place in the table of opens.
#[derive(Clone, Copy)]
pub struct OpenNow {
    pub place: u64,
    pub file: FileId,
    pub site: SiteId,
    pub process: u8,
    pub mode: Mode,
}

impl Keyed for OpenNow {
    ghost use Rattle.css_opens.specs.OpenIndex.{now_place};

    ghost key = { now_place };

    fn key(&self) -> u64 {
        self.place
    }
}

/// Why the instances that are open exclude an open of the file: the earliest of those that exclude it.
pub fn exclusion(instances: &[OpenNow], mode: Mode, file: FileId) -> Option<Refusal>
    ensures { result ≡ option_map busy (excluder mode (map opener_now (filter (is_now_on file) instances.now))) }
{
    for one in instances {
        if one.file == file && excludes(mode, one) {
            return Some(Refusal::Busy {
                site: one.site.get(),
                process: one.process,
            });
        }
    }
    None
}

/// An instance of the file is open.
pub fn is_open(instances: &[OpenNow], file: FileId) -> bool
    ensures { result ≡ list_any (is_now_on file) instances.now }
{
    instances.iter().any(|one| one.file == file)
}

/// Two instances of one file exclude each other unless both only read.
fn excludes(mode: Mode, other: &OpenNow) -> bool
    ensures { result ≡ excludes mode (opener_now other.now) }
{
    !(is_read(mode) && is_read(other.mode))
}

fn is_read(mode: Mode) -> bool
    ensures { result ≡ is_read mode }
{
    matches!(mode, Mode::Read)
}
