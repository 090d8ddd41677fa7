// The page cache at work, for the script of its tests. A line that says nothing that it knows, or a call of it that fails, ends the test:
// so no line has an exit.
use locus_ids::{Bytes, FileId, Stamp};
use page_cache::{CACHED_PAGES, PageCache, PageName, Part};
use std::alloc::Global;
use std::process::Abort;

/// What a line of the script says is done, and behind `->` stands what comes of it. A line that begins with `#` says what the next lines
/// show, of a cache that is new.
pub fn plays<R: Abort>(rt: &R, alloc: Global, script: &str) {
    let mut cache = PageCache::new(alloc);
    for line in script.lines() {
        plays_line(rt, alloc, &mut cache, line);
    }
}

fn plays_line<R: Abort>(rt: &R, alloc: Global, cache: &mut PageCache, line: &str) {
    let (said, wanted) = line.split_once("->").unwrap_or((line, ""));
    let words: Vec<&str> = said
        .split_whitespace()
        .collect(alloc)
        .expect(rt, "no memory");
    let mut text = String::new(alloc);
    match words.as_slice() {
        [] => (),
        ["#", ..] => *cache = PageCache::new(alloc),
        words => does(rt, alloc, cache, words, &mut text),
    }
    assert!(rt; text.as_str().trim() == wanted.trim(), "{line} -> {text}");
}

fn does<R: Abort>(rt: &R, alloc: Global, cache: &mut PageCache, words: &[&str], text: &mut String) {
    match words {
        ["full"] => fills(rt, cache),
        ["put", file, page, byte] => {
            let byte: u8 = byte.parse().ok().expect(rt, "no byte");
            let name = page_of(rt, file, page);
            cache.put(name, [byte; 1024]).expect(rt, "no memory");
        }
        ["get", file, page] => {
            let found = cache.get(&page_of(rt, file, page));
            say_page(rt, text, found.as_ref())
        }
        ["peek", file, page] => say_page(rt, text, cache.peek(&page_of(rt, file, page))),
        ["keep", size, at, len, count] => {
            let bytes = content(rt, alloc, number(rt, count));
            let part = part_of(rt, ["page", size, at, len]);
            cache.keep(&part, bytes.as_slice()).expect(rt, "no memory");
        }
        ["held", file, size, at, len] => {
            let part = part_of(rt, [file, size, at, len]);
            let found = cache.held(alloc, &part).expect(rt, "no memory");
            say_held(rt, text, part.at, &found);
        }
        _ => rt.panic("nothing to do"),
    }
}

fn number<R: Abort>(rt: &R, word: &str) -> u32 {
    word.parse().ok().expect(rt, "no number")
}

/// The file, and one more, and the stamp of its next version.
fn file_of(word: &str) -> (FileId, Stamp) {
    let ino = if word == "other" { 3 } else { 2 };
    let n = if word == "later" { 3 } else { 2 };
    (FileId { group: 0, ino }, Stamp { site: 1, n })
}

fn page_of<R: Abort>(rt: &R, word: &str, page: &str) -> PageName {
    let (file, stamp) = file_of(word);
    PageName {
        file,
        stamp,
        page: number(rt, page),
    }
}

fn part_of<R: Abort>(rt: &R, [word, size, at, len]: [&str; 4]) -> Part {
    let (file, stamp) = file_of(word);
    Part {
        file,
        stamp,
        size: number(rt, size),
        at: number(rt, at),
        len: len.parse().ok().expect(rt, "no length"),
    }
}

/// As many pages as may be, of sevens: those of the other file from 0 on, the last one in front.
fn fills<R: Abort>(rt: &R, cache: &mut PageCache) {
    for page in 0..CACHED_PAGES as u32 {
        let (file, stamp) = file_of("other");
        let name = PageName { file, stamp, page };
        cache.put(name, [7; 1024]).expect(rt, "no memory");
    }
}

/// So many bytes, of which those of a page are its number and 65.
fn content<R: Abort>(rt: &R, alloc: Global, len: u32) -> Bytes {
    let mut bytes = Bytes::new(alloc);
    for i in 0..len {
        let byte = 65 + (i / 1024 % 64) as u8;
        bytes.push(byte).expect(rt, "no memory");
    }
    bytes
}

/// The first two bytes of a page and its last one, and whether all are alike.
fn say_page<R: Abort>(rt: &R, text: &mut String, page: Option<&[u8; 1024]>) {
    let Some(page) = page else {
        text.push_str("none").expect(rt, "no memory");
        return;
    };
    let alike = if *page == [page[0]; 1024] {
        "alike"
    } else {
        ""
    };
    let [first, second, last] = [page[0], page[1], page[1023]];
    write!(text, "{first} {second} {last} {alike}").expect(rt, "no memory");
}

/// How many bytes were found, and whether they are those of `content` from the place on.
fn say_held<R: Abort>(rt: &R, text: &mut String, at: u32, found: &Option<Bytes>) {
    let Some(found) = found else {
        text.push_str("none").expect(rt, "no memory");
        return;
    };
    let count = u32::try_from(found.len()).ok().expect(rt, "many bytes");
    let kept = content(rt, found.allocator(), at.saturating_add(count));
    let same = kept.as_slice().get(at as usize..) == Some(found.as_slice());
    let whose = if same { "as kept" } else { "of others" };
    write!(text, "{count} {whose}").expect(rt, "no memory");
}
