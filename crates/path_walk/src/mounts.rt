ghost use Rattle.std.specs.Prelude.{◌≡◌, None};
ghost use Rattle.std.specs.Option.{is_some};
ghost use Rattle.call_rules.specs.Walks.{is_first_root, mounted, mounted_in, root_of};

use locus_ids::{FileId, Mount};

/// The root directory of a group.
pub fn root_of(group: u8) -> FileId
    ensures { result ≡ root_of group }
{
    FileId { group, ino: 1 }
}

/// The group that is mounted under the name.
pub fn mounted(mounts: &[Mount], name: &[u8]) -> Option<u8>
    ensures { result ≡ mounted mounts.now name.now }
{
    for mount in mounts {
        if mount.name.as_slice() == name {
            return Some(mount.group);
        }
    }
    None
}

/// Some group is mounted under the name.
pub fn is_mounted(mounts: &[Mount], name: &[u8]) -> bool
    ensures { result ≡ is_some (mounted mounts.now name.now) }
{
    mounted(mounts, name).is_some()
}

/// The directory is the root of group 0, the only one with mounts.
pub fn is_first_root(dir: FileId) -> bool
    ensures { result ≡ is_first_root dir }
{
    dir.group == 0 && dir.ino == 1
}

/// The group that is mounted under the name in this directory.
pub fn mounted_in(mounts: &[Mount], dir: FileId, name: &[u8]) -> Option<u8>
    ensures { result ≡ mounted_in mounts.now dir name.now }
{
    if is_first_root(dir) {
        mounted(mounts, name)
    } else {
        None
    }
}
