// Whether removed entries of a directory may want a rescue, by its bytes alone.
ghost use Rattle.std.specs.Prelude.{◌≡◌, ◌*◌, ◌≤◌, ◌<◌, List, true, length, IfSome};
ghost use Rattle.std.specs.Int.{from_be_bytes, w16, w32};
ghost use Rattle.locus_ids.specs.Sizes.{sites_max};
ghost use Rattle.dir_format.specs.Contents.{counters};
ghost use Rattle.dir_reconcile.specs.of_version_vector.Counters.{all_le};
ghost use Rattle.dir_reconcile.specs.declared.kept.KeptVector.{KeptVector};
ghost use Rattle.site_mends.specs.Scanning.{are_past, is_missed, IsBehindLive, IsBehindSeen};

use dir_reconcile::KeptVector;
use locus_ids::sizes::SITES;

/// What follows the live entries at the front of a directory's content: nothing where no entry is removed. A live entry brings
/// about no rescue, whatever is kept.
pub(crate) fn behind_all_live(content: &[u8]) -> &[u8]
    ensures { (kept : List KeptVector) → are_past kept result.now ≡ true → are_past kept content.now ≡ true }
{
    let mut rest = content;
    while let Some(behind) = behind_live(rest) {
        rest = behind;
    }
    rest
}

/// Each entry of these bytes is live, or its removal saw each kept version of its file. False says nothing: there is another
/// entry, or the bytes are no directory's.
pub(crate) fn are_surely_past(content: &[u8], kept: &[KeptVector]) -> bool
    ensures { result ≡ true → are_past kept.now content.now ≡ true }
{
    let mut rest = content;
    while let Some(behind) = behind_past(rest, kept) {
        rest = behind;
    }
    rest.is_empty()
}

/// What follows the first entry of these bytes, where it is live or its removal saw each kept version of its file.
fn behind_past<'a>(bytes: &'a [u8], kept: &[KeptVector]) -> Option<&'a [u8]>
    ensures past { IfSome result (λ behind. are_past kept.now behind.now ≡ true → are_past kept.now bytes.now ≡ true) }
    ensures shorter { IfSome result (λ behind. length behind.now < length bytes.now) }
{
    match behind_live(bytes) {
        Some(behind) => Some(behind),
        None => behind_seen(bytes, kept),
    }
}

/// What follows the first entry of these bytes, where it is live. An entry is the length of its name in one byte, the name, its
/// inode in two bytes, its kind in one, and its count in four; a live one has an odd count, and nothing behind it.
fn behind_live(bytes: &[u8]) -> Option<&[u8]>
    ensures { IfSome result (λ behind. IsBehindLive bytes.now behind.now) }
{
    let [length, entry @ ..] = bytes else {
        return None;
    };
    let name = usize::from(*length);
    if entry.len() < name + 7 {
        return None;
    }
    if count_of(&entry[name + 3..name + 7]) % 2 == 0 {
        return None;
    }
    Some(&entry[name + 7..])
}

/// What follows the first entry of these bytes, where it is removed and its removal saw each kept version of its file. A removed
/// entry has an even count, and behind it a counter of four bytes for each site.
fn behind_seen<'a>(bytes: &'a [u8], kept: &[KeptVector]) -> Option<&'a [u8]>
    ensures { IfSome result (λ behind. IsBehindSeen kept.now bytes.now behind.now) }
{
    let [length, entry @ ..] = bytes else {
        return None;
    };
    let name = usize::from(*length);
    if entry.len() < name + (7 + 4 * SITES) {
        return None;
    }
    if count_of(&entry[name + 3..name + 7]) % 2 == 1 {
        return None;
    }
    if is_missed(kept, ino_of(&entry[name..name + 2]), &entry[name + 7..]) {
        return None;
    }
    Some(&entry[name + (7 + 4 * SITES)..])
}

/// Some kept version of the file isn't at most the vector that these bytes begin with.
fn is_missed(kept: &[KeptVector], ino: u16, seen: &[u8]) -> bool
    requires { 4 * sites_max ≤ length seen.now }
    ensures { result ≡ is_missed kept.now ino (counters sites_max seen.now) }
{
    kept.iter().any(|version| version.ino.get() == ino
        && !is_at_most(&version.vector.parts(), seen))
}

/// Each of these counters is at most the one that stands for it in the bytes.
fn is_at_most(parts: &[u32], seen: &[u8]) -> bool
    requires { 4 * length parts.now ≤ length seen.now }
    ensures { result ≡ all_le parts.now (counters (length parts.now) seen.now) }
{
    for i in 0..parts.len() {
        if parts[i] > count_of(&seen[4 * i..4 * i + 4]) {
            return false;
        }
    }
    true
}

fn count_of(field: &[u8]) -> u32
    requires { length field.now ≡ 4 }
    ensures { result ≡ from_be_bytes w32 field.now }
{
    u32::from_be_bytes([field[0], field[1], field[2], field[3]])
}

fn ino_of(field: &[u8]) -> u16
    requires { length field.now ≡ 2 }
    ensures { result ≡ from_be_bytes w16 field.now }
{
    u16::from_be_bytes([field[0], field[1]])
}
