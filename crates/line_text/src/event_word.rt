ghost use Rattle.std.specs.Prelude.{◌≡◌};
ghost use Rattle.line_text.specs.EventReader.{event_word};

use crate::words::is_text;

/// The first word of an event line.
#[derive(Clone, Copy)]
pub(crate) enum EventWord {
    Call,
    Deliver,
    Lose,
    Tick,
    Down,
    Up,
    Part,
    Merge,
    GiveUp,
    Stop,
    Fail,
    Boot,
    Settle,
}

pub(crate) fn find_event_word(word: &[u8]) -> Option<EventWord>
    ensures { result ≡ event_word word.now }
{
    if is_text(word, b"call") {
        return Some(EventWord::Call);
    }
    if is_text(word, b"deliver") {
        return Some(EventWord::Deliver);
    }
    if is_text(word, b"lose") {
        return Some(EventWord::Lose);
    }
    if is_text(word, b"tick") {
        return Some(EventWord::Tick);
    }
    if is_text(word, b"down") {
        return Some(EventWord::Down);
    }
    if is_text(word, b"up") {
        return Some(EventWord::Up);
    }
    if is_text(word, b"part") {
        return Some(EventWord::Part);
    }
    if is_text(word, b"merge") {
        return Some(EventWord::Merge);
    }
    if is_text(word, b"giveup") {
        return Some(EventWord::GiveUp);
    }
    if is_text(word, b"stop") {
        return Some(EventWord::Stop);
    }
    if is_text(word, b"fail") {
        return Some(EventWord::Fail);
    }
    if is_text(word, b"boot") {
        return Some(EventWord::Boot);
    }
    if is_text(word, b"settle") {
        return Some(EventWord::Settle);
    }
    None
}
