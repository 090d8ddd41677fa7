// The words of a line.
ghost use Rattle.std.specs.Prelude.{◌≡◌, ◌∷◌, ◌++◌, IfOk, IfSome, IfNone};
ghost use Rattle.std.specs.List.{list_all};
ghost use Rattle.std.specs.Str.{bytes_eq};
ghost use Rattle.schedule_lines.specs.Ranges.{is_word, is_word_byte};
ghost use Rattle.schedule_lines.specs.Spelling.{is_passed};
ghost use Rattle.line_text.specs.Words.{Lacks, split_at, three_words, two_words, word_in};

use locus_ids::{Bytes, NoMemory};
use std::alloc::Global;

/// An empty line or a comment, which may stand anywhere.
pub fn is_passed(line: &[u8]) -> bool
    ensures { result ≡ is_passed line.now }
{
    match line {
        [] => true,
        [first, ..] => *first == b'#',
    }
}

/// What stands before the first such byte, and what stands after it.
pub fn split_at(bytes: &[u8], separator: u8) -> Option<(&[u8], &[u8])>
    ensures found { IfSome result (λ p. split_at separator bytes.now ≡ Some (p.0.now, p.1.now)) }
    ensures none { IfNone result (split_at separator bytes.now ≡ None) }
{
    cut_at(bytes, separator)
}

/// The bytes before the first such byte, and those after it.
fn cut_at(bytes: &[u8], separator: u8) -> Option<(&[u8], &[u8])>
    ensures found { IfSome result (λ p. bytes.now ≡ p.0.now ++ (separator ∷ p.1.now)) }
    ensures first { IfSome result (λ p. Lacks separator p.0.now) }
    ensures none { IfNone result (Lacks separator bytes.now) }
{
    let place = bytes.iter().position(|b| *b == separator)?;
    Some((&bytes[..place], &bytes[place + 1..]))
}

/// The first word, and what follows its space.
pub fn two_words(bytes: &[u8]) -> Option<(&[u8], &[u8])>
    ensures found { IfSome result (λ p. two_words bytes.now ≡ Some (p.0.now, p.1.now)) }
    ensures none { IfNone result (two_words bytes.now ≡ None) }
{
    split_at(bytes, b' ')
}

/// The first and the second word, and what follows their spaces.
pub(crate) fn three_words(bytes: &[u8]) -> Option<(&[u8], &[u8], &[u8])>
    ensures found { IfSome result (λ p. three_words bytes.now ≡ Some (p.0.now, p.1.now, p.2.now)) }
    ensures none { IfNone result (three_words bytes.now ≡ None) }
{
    let (first, rest) = two_words(bytes)?;
    let (second, third) = two_words(rest)?;
    Some((first, second, third))
}

/// A copy of the word, or `None` exactly where the bytes are no word.
pub(crate) fn copy_word(alloc: Global, bytes: &[u8]) -> Result<Option<Bytes>, NoMemory>
    ensures { IfOk result (λ o. o ≡ word_in bytes.now) }
{
    if !is_word(bytes) {
        return Ok(None);
    }
    let word = Bytes::from_slice(alloc, bytes)?;
    Ok(Some(word))
}

/// The word is this text.
pub fn is_text(word: &[u8], text: &[u8]) -> bool
    ensures { result ≡ bytes_eq word.now text.now }
{
    word == text
}

fn is_word(bytes: &[u8]) -> bool
    ensures { result ≡ is_word bytes.now }
{
    !bytes.is_empty() && are_word_bytes(bytes)
}

fn are_word_bytes(bytes: &[u8]) -> bool
    ensures { result ≡ list_all is_word_byte bytes.now }
{
    bytes.iter().all(|c| is_word_byte(*c))
}

fn is_word_byte(c: u8) -> bool
    ensures { result ≡ is_word_byte c }
{
    33 <= c && c <= 126
}
