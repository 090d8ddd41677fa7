// What a test of a room is: a script. Each line says what is done, and behind `->` what comes of it; a line that begins with `#` says
// what the next lines show, of a room that is new.
use crate::checks::given;
use role_shown::shown;
use std::alloc::Global;
use std::process::Abort;
use wire_messages::Outbox;

/// A room at work. Where a line says nothing that it knows, or a call of it fails, the test ends: so no line has an exit.
pub trait Room: Drop {
    fn new<R: Abort + Eprint>(rt: &R, alloc: Global) -> Self;

    /// Does what the words say, and writes what comes of it.
    fn does<R: Abort + Eprint>(&mut self, rt: &R, words: &[&str], text: &mut String);
}

/// A room plays the script.
pub fn plays<P: Room, R: Abort + Eprint>(rt: &R, alloc: Global, script: &str) {
    let mut room = P::new(rt, alloc);
    for line in script.lines() {
        plays_line(rt, alloc, &mut room, line);
    }
}

fn plays_line<P: Room, R: Abort + Eprint>(rt: &R, alloc: Global, room: &mut P, line: &str) {
    let (said, wanted) = line.split_once("->").unwrap_or((line, ""));
    let words: Vec<&str> = said
        .split_whitespace()
        .collect(alloc)
        .expect(rt, "no memory");
    let mut text = String::new(alloc);
    match words.as_slice() {
        [] => (),
        ["#", ..] => *room = P::new(rt, alloc),
        words => room.does(rt, words, &mut text),
    }
    assert!(rt; text.as_str().trim() == wanted.trim(), "{line} -> {text}");
}

/// Writes what a call of a room sends and tells.
pub fn tell<R: Abort + Eprint>(rt: &R, alloc: Global, out: &Outbox, text: &mut String) {
    say(rt, text, given(rt, shown(alloc, out)).as_str());
}

pub fn say<R: Abort>(rt: &R, text: &mut String, said: &str) {
    text.push_str(said).expect(rt, "no memory");
}
