ghost use Rattle.std.specs.Prelude.{◌≡◌};
ghost use Rattle.line_text.specs.CallReader.{call_word};

use crate::words::is_text;

/// The first word of a call.
#[derive(Clone, Copy)]
pub(crate) enum CallWord {
    Create,
    MakeDir,
    Unlink,
    RemoveDir,
    Rename,
    List,
    Stat,
    Open,
    Read,
    Write,
    Cut,
    Commit,
    Abort,
    Close,
    Mail,
    Mails,
}

pub(crate) fn find_call_word(word: &[u8]) -> Option<CallWord>
    ensures { result ≡ call_word word.now }
{
    if is_text(word, b"create") {
        return Some(CallWord::Create);
    }
    if is_text(word, b"mkdir") {
        return Some(CallWord::MakeDir);
    }
    if is_text(word, b"unlink") {
        return Some(CallWord::Unlink);
    }
    if is_text(word, b"rmdir") {
        return Some(CallWord::RemoveDir);
    }
    if is_text(word, b"rename") {
        return Some(CallWord::Rename);
    }
    if is_text(word, b"list") {
        return Some(CallWord::List);
    }
    if is_text(word, b"stat") {
        return Some(CallWord::Stat);
    }
    if is_text(word, b"open") {
        return Some(CallWord::Open);
    }
    if is_text(word, b"read") {
        return Some(CallWord::Read);
    }
    if is_text(word, b"write") {
        return Some(CallWord::Write);
    }
    if is_text(word, b"cut") {
        return Some(CallWord::Cut);
    }
    if is_text(word, b"commit") {
        return Some(CallWord::Commit);
    }
    if is_text(word, b"abort") {
        return Some(CallWord::Abort);
    }
    if is_text(word, b"close") {
        return Some(CallWord::Close);
    }
    if is_text(word, b"mail") {
        return Some(CallWord::Mail);
    }
    if is_text(word, b"mails") {
        return Some(CallWord::Mails);
    }
    None
}
