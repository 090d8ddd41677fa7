ghost use Rattle.std.specs.Prelude.{◌≡◌};
ghost use Rattle.std.specs.List.{list_all};
ghost use Rattle.trace_book.specs.Names.{is_name, is_name_byte};

/// The bytes are a plain name: 1 to 60 printing bytes without `/` and `@`, and neither `.` nor `..`.
pub fn is_name(name: &[u8]) -> bool
    ensures { result ≡ is_name name.now }
{
    if name.is_empty() || name.len() > 60 {
        return false;
    }
    if name == b".".as_slice() || name == b"..".as_slice() {
        return false;
    }
    are_name_bytes(name)
}

fn are_name_bytes(name: &[u8]) -> bool
    ensures { result ≡ list_all is_name_byte name.now }
{
    name.iter().all(|c| is_name_byte(*c))
}

fn is_name_byte(c: u8) -> bool
    ensures { result ≡ is_name_byte c }
{
    33 <= c && c <= 126 && c != b'/' && c != b'@'
}
