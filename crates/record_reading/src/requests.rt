// What is looked up, and the words of calls.
ghost use Rattle.std.specs.Prelude.{◌≡◌, IfOk};
ghost use Rattle.std.specs.Option.{option_map};
ghost use Rattle.trace_book.specs.declared.operation.What.TheVariants as what;
ghost use Rattle.record_words.specs.Answers.{served_in};
ghost use Rattle.record_reading.specs.AsRead.{served_stamp};
ghost use Rattle.record_words.specs.Fields.{component_in, words_in};
ghost use Rattle.record_reading.specs.Requests.{call_words_in, look_in, look_with, mend_in};

use line_text::{call_of, is_text, two_words};
use locus_ids::sizes::SITES;
use locus_ids::{NoMemory, Stamp};
use record_words::answers::served;
use record_words::fields::file;
use record_words::lists;
use std::alloc::Global;
use trace_book::{Call, Served, What};

/// What is looked up, with what is served.
pub(crate) fn look(alloc: Global, bytes: &[u8]) -> Result<Option<(What, Served)>, NoMemory>
    ensures { IfOk result (λ o. o ≡ look_in bytes.now) }
{
    match two_words(bytes) {
        Some((word, rest)) => look_with(alloc, word, rest),
        None => Ok(None),
    }
}

/// The look of this first word, and of what follows.
fn look_with(alloc: Global, word: &[u8], rest: &[u8]) -> Result<Option<(What, Served)>, NoMemory>
    ensures { IfOk result (λ o. o ≡ look_with word.now rest.now) }
{
    if is_text(word, b"name") {
        return name(alloc, rest);
    }
    if is_text(word, b"list") {
        return Ok(served(alloc, rest)?.map(|served| (What::List, served)));
    }
    if is_text(word, b"stat") {
        return Ok(served(alloc, rest)?.map(|served| (What::Stat, served)));
    }
    if is_text(word, b"whole") {
        return whole(alloc, rest);
    }
    Ok(None)
}

/// `COMPONENT SERVED`.
fn name(alloc: Global, rest: &[u8]) -> Result<Option<(What, Served)>, NoMemory>
    ensures { IfOk result (λ o. o ≡ option_map (λ t. (what.Name t.0, t.1)) (words_in component_in served_in rest.now)) }
{
    let Some((component, rest)) = two_words(rest) else {
        return Ok(None);
    };
    let Some(component) = lists::component(alloc, component)? else {
        return Ok(None);
    };
    let Some(served) = served(alloc, rest)? else {
        return Ok(None);
    };
    Ok(Some((What::Name { component }, served)))
}

/// A look at a whole directory asked for the version that is served.
fn whole(alloc: Global, rest: &[u8]) -> Result<Option<(What, Served)>, NoMemory>
    ensures { IfOk result (λ o. o ≡ option_map (λ s. (what.Whole (served_stamp s), s)) (served_in rest.now)) }
{
    let Some(served) = served(alloc, rest)? else {
        return Ok(None);
    };
    let stamp = served_stamp(&served);
    Ok(Some((What::Whole { stamp }, served)))
}

fn served_stamp(served: &Served) -> Stamp
    ensures { result ≡ served_stamp served.now }
{
    match served {
        Served::At { stamp } => *stamp,
        Served::No { why: _ } => Stamp { site: 0, n: 0 },
    }
}

/// The words of a call of this process.
pub(crate) fn call_words(alloc: Global, process: u8, bytes: &[u8]) -> Result<Option<Call>, NoMemory>
    ensures { IfOk result (λ o. o ≡ call_words_in process bytes.now) }
{
    if process == 0 {
        return Ok(mend(bytes));
    }
    call_of(alloc, bytes, SITES as u8)
}

/// `mend FILE`.
fn mend(bytes: &[u8]) -> Option<Call>
    ensures { result ≡ mend_in bytes.now }
{
    let (word, rest) = two_words(bytes)?;
    if !is_text(word, b"mend") {
        return None;
    }
    let file = file(rest)?;
    Some(Call::Mend { file })
}
