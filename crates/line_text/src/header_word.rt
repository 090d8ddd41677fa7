ghost use Rattle.std.specs.Prelude.{◌≡◌};
ghost use Rattle.line_text.specs.HeaderReader.{header_word};

use crate::words::is_text;

/// The first word of a header line.
#[derive(Clone, Copy)]
pub(crate) enum HeaderWord {
    Sites,
    Group,
    Mount,
}

pub(crate) fn find_header_word(word: &[u8]) -> Option<HeaderWord>
    ensures { result ≡ header_word word.now }
{
    if is_text(word, b"sites") {
        return Some(HeaderWord::Sites);
    }
    if is_text(word, b"group") {
        return Some(HeaderWord::Group);
    }
    if is_text(word, b"mount") {
        return Some(HeaderWord::Mount);
    }
    None
}
