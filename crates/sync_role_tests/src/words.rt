// What the words of a script stand for.
use crate::script::say;
use locus_ids::{Serial, Stamp};
use std::process::Abort;
use version_vector::Vector;

/// A yes or a no.
pub fn say_if<R: Abort>(rt: &R, text: &mut String, is_so: bool) {
    say(rt, text, if is_so { "yes" } else { "no" });
}

/// A number, or that there is none.
pub fn say_number<R: Abort>(rt: &R, text: &mut String, number: Option<usize>) {
    match number {
        Some(number) => write!(text, "{number} ").expect(rt, "no memory"),
        None => say(rt, text, "none "),
    }
}

pub fn say_stamp<R: Abort>(rt: &R, text: &mut String, stamp: Stamp) {
    let Stamp { site, n } = stamp;
    write!(text, "{site}.{n} ").expect(rt, "no memory");
}

pub fn byte<R: Abort>(rt: &R, word: &str) -> u8 {
    word.parse().ok().expect(rt, "no byte")
}

pub fn short<R: Abort>(rt: &R, word: &str) -> u16 {
    word.parse().ok().expect(rt, "no short number")
}

pub fn long<R: Abort>(rt: &R, word: &str) -> u32 {
    word.parse().ok().expect(rt, "no number")
}

/// The name of a version: a site and a number.
pub fn stamp_of<R: Abort>(rt: &R, word: &str) -> Stamp {
    let (site, n) = word.split_once(".").expect(rt, "no stamp");
    Stamp {
        site: byte(rt, site),
        n: long(rt, n),
    }
}

/// The name of an instance: a using site and a number.
pub fn instance<R: Abort>(rt: &R, word: &str) -> Serial {
    let Stamp { site, n } = stamp_of(rt, word);
    Serial {
        us: site,
        serial: n,
    }
}

/// So many commits of each of the sites 1, 2 and 3, one digit for each.
pub fn vector_of<R: Abort>(rt: &R, word: &str) -> Vector<16> {
    let [one, two, three] = *word.as_bytes() else {
        rt.panic("no vector")
    };
    role_shown::vector(digit(one), digit(two), digit(three))
}

fn digit(byte: u8) -> u32 {
    u32::from(byte.saturating_sub(b'0'))
}
