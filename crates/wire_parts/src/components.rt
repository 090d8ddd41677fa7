ghost use Rattle.std.specs.Prelude.{◌≡◌, ◌<◌, ◌+◌, take, drop, length, MatchOption, Some, None};
ghost use Rattle.std.specs.List.{list_all};
ghost use Rattle.trace_book.specs.Names.{is_name_byte, is_name, plain_name};
ghost use Rattle.wire_fields.specs.Components.{after_at, is_digit, is_small_from, is_inode_text, is_component};

use locus_ids::sizes::INODES;

/// A printing byte that is neither `/` nor `@`.
fn is_name_byte(c: u8) -> bool
    ensures { result ≡ is_name_byte c }
{
    33 <= c && c <= 126 && c != b'/' && c != b'@'
}

fn are_name_bytes(name: &[u8]) -> bool
    ensures { result ≡ list_all is_name_byte name.now }
{
    name.iter().all(|&c| is_name_byte(c))
}

/// A plain name: 1 to 60 such bytes, and neither `.` nor `..`.
pub fn is_name(name: &[u8]) -> bool
    ensures { result ≡ is_name name.now }
{
    0 < name.len()
        && (name.len() <= 60
            && (name != b".".as_slice() && (name != b"..".as_slice() && are_name_bytes(name))))
}

/// The place of the first `@`.
fn place_of_at(bytes: &[u8]) -> Option<usize>
    ensures { MatchOption result ((plain_name bytes.now ≡ bytes.now) × (after_at bytes.now ≡ None)) (λ i. (i < length bytes.now) × (plain_name bytes.now ≡ take i bytes.now) × (after_at bytes.now ≡ Some (drop (i + 1) bytes.now))) }
{
    for i in 0..bytes.len() {
        if bytes[i] == b'@' {
            return Some(i);
        }
    }
    None
}

fn is_digit(c: u8) -> bool
    ensures { result ≡ is_digit c }
{
    48 <= c && c <= 57
}

/// These are digits of a number that is at most 1,024.
fn is_small_number(digits: &[u8]) -> bool
    ensures { result ≡ is_small_from 0 digits.now }
{
    let mut number = 0;
    for i in 0..digits.len() {
        if !is_digit(digits[i]) {
            return false;
        }
        number = 10 * number + (digits[i] - b'0') as u32;
        if number > INODES as u32 {
            return false;
        }
    }
    true
}

/// An inode number, from 1, in decimal digits without a leading zero.
fn is_inode_text(digits: &[u8]) -> bool
    ensures { result ≡ is_inode_text digits.now }
{
    if digits.is_empty() || digits[0] == b'0' {
        return false;
    }
    is_small_number(digits)
}

/// A plain name, or a name with `@` and an inode number.
pub fn is_component(bytes: &[u8]) -> bool
    ensures { result ≡ is_component bytes.now }
{
    match place_of_at(bytes) {
        None => is_name(bytes),
        Some(i) => is_name(&bytes[..i]) && is_inode_text(&bytes[i + 1..]),
    }
}
