// Tests on the cluster that header lines make.
ghost use Rattle.std.specs.Prelude.{◌≡◌, ◌≤◌, ◌^◌};
ghost use Rattle.std.specs.List.{list_all};
ghost use Rattle.trace_book.specs.Names.{is_name, is_name_byte};
ghost use Rattle.schedule_lines.specs.Cluster.{has_packs, is_mount_name, is_mounted, is_settled, is_whole};
ghost use Rattle.schedule_lines.specs.Ranges.{is_some_sites};

use trace_book::locus_ids::Config;
use trace_book::locus_ids::sizes::SITES;

/// A line has said which sites have packs of the group.
pub(crate) fn has_packs(c: &Config, group: u8) -> bool
    requires { group ≤ 3 }
    ensures { result ≡ has_packs c.now group }
{
    c.packs[usize::from(group)].0 != 0
}

pub(crate) fn is_mounted(c: &Config, group: u8) -> bool
    ensures { result ≡ is_mounted c.now group }
{
    c.mounts.as_slice().iter().any(|m| m.group == group)
}

/// A group is mounted on this name.
pub(crate) fn is_mount_name(c: &Config, name: &[u8]) -> bool
    ensures { result ≡ is_mount_name c.now name.now }
{
    c.mounts
        .as_slice()
        .iter()
        .any(|m| m.name.as_slice() == name)
}

fn is_settled(c: &Config, group: u8) -> bool
    requires { group ≤ 3 }
    ensures { result ≡ is_settled c.now group }
{
    !has_packs(c, group) || is_mounted(c, group)
}

/// Group 0 is there and every other group is mounted.
pub(crate) fn is_whole(c: &Config) -> bool
    ensures { result ≡ is_whole c.now }
{
    has_packs(c, 0) && is_settled(c, 1) && is_settled(c, 2) && is_settled(c, 3)
}

/// The bits are those of some of sites 1 to n.
pub(crate) fn is_some_sites(n: u8, bits: u16) -> bool
    ensures { result ≡ is_some_sites n (record { 0 = bits }) }
{
    0 < bits && u32::from(bits) < 1 << n.min(SITES as u8)
}

/// A plain name.
pub(crate) fn is_name(name: &[u8]) -> bool
    ensures { result ≡ is_name name.now }
{
    if name.is_empty() || name.len() > 60 {
        return false;
    }
    if name == b".".as_slice() || name == b"..".as_slice() {
        return false;
    }
    are_name_bytes(name)
}

fn are_name_bytes(name: &[u8]) -> bool
    ensures { result ≡ list_all is_name_byte name.now }
{
    name.iter().all(|c| is_name_byte(*c))
}

fn is_name_byte(c: u8) -> bool
    ensures { result ≡ is_name_byte c }
{
    33 <= c && c <= 126 && c != b'/' && c != b'@'
}
