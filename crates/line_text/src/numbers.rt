// Numbers in words: decimal digits without a sign or a leading zero.
ghost use Rattle.std.specs.Prelude.{◌≡◌, ℕ, ◌≤◌, ◌↔◌, IfSome, IfNone};
ghost use Rattle.schedule_lines.specs.Ranges.{is_between};
ghost use Rattle.line_text.specs.CallReader.{descriptor_in};
ghost use Rattle.line_text.specs.Numerals.{IsNumber, begins_well};
ghost use Rattle.line_text.specs.Words.{number_in, site_in};

use locus_ids::SiteId;
use locus_ids::sizes::{DESCRIPTOR_SPAN, SITES};

/// The number from `low` to `most` that the word is.
pub fn number(word: &[u8], low: u32, most: u32) -> Option<u32>
    ensures { result ≡ number_in low most word.now }
{
    let n = plain_number(word, most)?;
    if n < low { None } else { Some(n) }
}

/// The number up to `most` that the word is.
fn plain_number(word: &[u8], most: u32) -> Option<u32>
    ensures found { IfSome result (IsNumber most word.now) }
    ensures none { IfNone result ((n : ℕ) → IsNumber most word.now n → ⊥) }
{
    if !begins_well(word) {
        return None;
    }
    let mut n: u64 = 0;
    for c in word {
        if n > u64::from(u32::MAX) || !is_digit(*c) {
            return None;
        }
        n = n * 10 + u64::from(*c - b'0');
    }
    if n <= u64::from(most) {
        Some(n as u32)
    } else {
        None
    }
}

fn is_digit(c: u8) -> bool
    ensures { result ≡ is_between 48 57 c }
{
    b'0' <= c && c <= b'9'
}

/// A digit, which is no zero before other bytes.
fn begins_well(word: &[u8]) -> bool
    ensures { result ≡ begins_well word.now }
{
    match word {
        [] => false,
        [only] => b'0' <= *only && *only <= b'9',
        [first, _, ..] => b'1' <= *first && *first <= b'9',
    }
}

/// The number from `low` to `most` that the word is, where the most is below 256.
pub fn small_number(word: &[u8], low: u8, most: u8) -> Option<u8>
    ensures { result ≡ number_in low most word.now }
{
    let n = number(word, u32::from(low), u32::from(most))?;
    Some(n as u8)
}

/// The number from 0 to `most` that the word is, where the most is below 65,536.
pub(crate) fn short_number(word: &[u8], most: u16) -> Option<u16>
    ensures { result ≡ number_in 0 most word.now }
{
    let n = number(word, 0, u32::from(most))?;
    Some(n as u16)
}

/// The descriptor that the word is.
pub(crate) fn descriptor(word: &[u8]) -> Option<u16>
    ensures { result ≡ descriptor_in word.now }
{
    short_number(word, (DESCRIPTOR_SPAN - 1) as u16)
}

/// The site that the word is, in a cluster of n sites.
pub(crate) fn site(word: &[u8], n: u8) -> Option<SiteId>
    ensures { result ≡ site_in n word.now }
{
    let number = small_number(word, 1, n.min(SITES as u8))?;
    SiteId::new(number)
}
