ghost use Rattle.std.specs.Prelude.{◌≡◌, [], true, false, not, ◌&&◌};
ghost use Rattle.trace_book.specs.Names.{components};
ghost use Rattle.call_rules.specs.Words.{is_badly_named, is_mount_name, names_entry, names_new};
ghost use Rattle.call_scripts.specs.Scripted.{path_of};

use locus_ids::{Bytes, Mount};
use path_walk::{is_mounted, is_name, is_path, last_of};
use trace_book::Call;

/// The path of a call, and no bytes where it has none.
pub(crate) fn path_of(words: &Call) -> &[u8]
    ensures { result.now ≡ path_of words.now }
{
    match words {
        Call::Create { path, sites: _ } => path.as_slice(),
        Call::MakeDir { path } => path.as_slice(),
        Call::Unlink { path } => path.as_slice(),
        Call::RemoveDir { path } => path.as_slice(),
        Call::Rename { path, name: _ } => path.as_slice(),
        Call::List { path } => path.as_slice(),
        Call::Stat { path } => path.as_slice(),
        Call::Mail { path, bytes: _ } => path.as_slice(),
        Call::Mails { path } => path.as_slice(),
        Call::Open { path, mode: _ } => path.as_slice(),
        _ => &[],
    }
}

/// The call has a path or a new name that isn't allowed. `names` are the components of its path.
pub(crate) fn is_badly_named(mounts: &[Mount], words: &Call, names: &[Bytes]) -> bool
    requires { names.now ≡ components (path_of words.now) }
    ensures { result ≡ is_badly_named mounts.now words.now }
{
    match words {
        Call::Create { path, sites: _ } => !names_new(mounts, path.as_slice(), names),
        Call::MakeDir { path } => !names_new(mounts, path.as_slice(), names),
        Call::Unlink { path } => !names_entry(mounts, path.as_slice(), names),
        Call::RemoveDir { path } => !names_entry(mounts, path.as_slice(), names),
        Call::Rename { path, name } => {
            let path = path.as_slice();
            let name = name.as_slice();
            let is_new = is_name(name) && !is_mount_name(mounts, path, names, name);
            !(names_entry(mounts, path, names) && is_new)
        }
        Call::List { path } => !is_path(path.as_slice(), names),
        Call::Stat { path } => !is_path(path.as_slice(), names),
        Call::Mail { path, bytes: _ } => !is_path(path.as_slice(), names),
        Call::Mails { path } => !is_path(path.as_slice(), names),
        Call::Open { path, mode: _ } => !is_path(path.as_slice(), names),
        _ => false,
    }
}

/// The last component may be the name of a new entry: a plain one.
fn names_new(mounts: &[Mount], path: &[u8], names: &[Bytes]) -> bool
    requires { names.now ≡ components path.now }
    ensures { result ≡ names_new mounts.now path.now }
{
    names_entry(mounts, path, names) && is_name(last_of(names))
}

/// The last component of a path may be an entry's: it is there, and is no mount name.
fn names_entry(mounts: &[Mount], path: &[u8], names: &[Bytes]) -> bool
    requires { names.now ≡ components path.now }
    ensures { result ≡ names_entry mounts.now path.now }
{
    is_path(path, names) && (0 < names.len() && !is_mount_name(mounts, path, names, last_of(names)))
}

/// The name beside the last component of the path is that of a mount, which only the root of group 0 has.
fn is_mount_name(mounts: &[Mount], path: &[u8], names: &[Bytes], name: &[u8]) -> bool
    requires { names.now ≡ components path.now }
    ensures { result ≡ is_mount_name mounts.now path.now name.now }
{
    let _ = path;
    names.len() == 1 && is_mounted(mounts, name)
}
