// Bytes in words: two digits of lower-case hexadecimal each.
ghost use Rattle.std.specs.Prelude.{◌≡◌, ◌<◌, ◌^◌, IfOk};
ghost use Rattle.std.specs.List.{list_all};
ghost use Rattle.line_text.specs.Words.{byte_in, hex_in, is_lower_digit};

use locus_ids::{Bytes, NoMemory};
use std::alloc::Global;

/// The bytes, 1 to `most`, that the word is.
pub fn hex_bytes(alloc: Global, word: &[u8], most: usize) -> Result<Option<Bytes>, NoMemory>
    requires { most < 2 ^ 32 }
    ensures { IfOk result (λ o. o ≡ hex_in most word.now) }
{
    if word.is_empty() {
        return Ok(None);
    }
    if word.len() % 2 == 1 {
        return Ok(None);
    }
    if word.len() > 2 * most {
        return Ok(None);
    }
    if !are_lower_digits(word) {
        return Ok(None);
    }
    // Digits of an even number are refused for want of memory alone.
    match hex::decode(alloc, word) {
        Ok(bytes) => Ok(Some(Bytes::from_slice(alloc, &bytes)?)),
        Err(_) => Err(NoMemory),
    }
}

/// The byte that the word is.
pub(crate) fn hex_byte(word: &[u8]) -> Option<u8>
    ensures { result ≡ byte_in word.now }
{
    if !are_lower_digits(word) {
        return None;
    }
    let mut byte = [0; 1];
    match hex::decode_to_slice(word, &mut byte) {
        Ok(()) => Some(byte[0]),
        Err(_) => None,
    }
}

fn are_lower_digits(word: &[u8]) -> bool
    ensures { result ≡ list_all is_lower_digit word.now }
{
    word.iter().all(|c| is_lower_digit(*c))
}

fn is_lower_digit(c: u8) -> bool
    ensures { result ≡ is_lower_digit c }
{
    (b'0' <= c && c <= b'9') || (b'a' <= c && c <= b'f')
}
