ghost use Rattle.std.specs.Prelude.{◌≡◌};
ghost use Rattle.std.specs.List.{list_all};
ghost use Rattle.trace_book.specs.Names.{components, is_name, plain_name};
ghost use Rattle.call_rules.specs.Paths.{is_component, is_path};

use locus_ids::Bytes;

/// The bytes, which have these components, are a path: `/` alone, or 1 to 32 components with a slash before each, in at
/// most 1,024 bytes.
pub fn is_path(path: &[u8], names: &[Bytes]) -> bool
    requires { names.now ≡ components path.now }
    ensures { result ≡ is_path path.now }
{
    match path {
        [] => false,
        [first, ..] => {
            *first == b'/' && (path.len() <= 1024 && (names.len() <= 32 && are_components(names)))
        }
    }
}

fn are_components(names: &[Bytes]) -> bool
    ensures { result ≡ list_all is_component names.now }
{
    names.iter().all(|name| is_component(name.as_slice()))
}

/// A plain name, or one with `@` and an inode number.
fn is_component(name: &[u8]) -> bool
    ensures { result ≡ is_component name.now }
{
    wire_parts::is_component(name)
}

/// The bytes before the first `@`.
pub fn plain_name(component: &[u8]) -> &[u8]
    ensures { result.now ≡ plain_name component.now }
{
    for i in 0..component.len() {
        if component[i] == b'@' {
            return &component[..i];
        }
    }
    component
}

/// A plain name: 1 to 60 printing bytes without `/` and `@`, and neither `.` nor `..`.
pub fn is_name(name: &[u8]) -> bool
    ensures { result ≡ is_name name.now }
{
    wire_parts::is_name(name)
}
