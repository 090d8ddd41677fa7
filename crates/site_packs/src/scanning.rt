// Whether entries of a directory are removed, by its bytes alone.
ghost use Rattle.std.specs.Prelude.{◌≡◌, true, length, IfSome};
ghost use Rattle.std.specs.Int.{from_be_bytes, w32};
ghost use Rattle.site_packs.specs.Live.{is_all_live, IsBehindLive};

/// No entry is removed in a directory of this content. False says nothing: some entry is removed, or the bytes are no directory's.
pub(crate) fn are_surely_live(content: &[u8]) -> bool
    ensures { result ≡ true → is_all_live content.now ≡ true }
{
    let mut rest = content;
    while let Some(behind) = behind_live(rest) {
        rest = behind;
    }
    rest.is_empty()
}

/// What follows the first entry of these bytes, where it is live. An entry is the length of its name in one byte, the name, its
/// inode in two bytes, its kind in one, and its count in four; a live one has an odd count, and nothing behind it.
fn behind_live(bytes: &[u8]) -> Option<&[u8]>
    ensures { IfSome result (λ behind. IsBehindLive bytes.now behind.now) }
{
    let [length, entry @ ..] = bytes else {
        return None;
    };
    let name = usize::from(*length);
    if entry.len() < name + 7 {
        return None;
    }
    if count_of(&entry[name + 3..name + 7]) % 2 == 0 {
        return None;
    }
    Some(&entry[name + 7..])
}

fn count_of(field: &[u8]) -> u32
    requires { length field.now ≡ 4 }
    ensures { result ≡ from_be_bytes w32 field.now }
{
    u32::from_be_bytes([field[0], field[1], field[2], field[3]])
}
