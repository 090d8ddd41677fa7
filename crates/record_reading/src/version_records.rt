// What a trace tells of versions.
ghost use Rattle.std.specs.Prelude.{◌≡◌, IfOk};
ghost use Rattle.record_reading.specs.Records.{adopt_in, commit_in};

use line_text::two_words;
use locus_ids::NoMemory;
use locus_ids::sizes::FILE_BYTES;
use record_words::fields::{self, any_site};
use record_words::lists;
use std::alloc::Global;
use trace_book::Record;

/// `FILE SITE STAMP PARENTS CONTENT`.
pub(crate) fn commit(alloc: Global, rest: &[u8]) -> Result<Option<Record>, NoMemory>
    ensures { IfOk result (λ o. o ≡ commit_in rest.now) }
{
    let Some((file, rest)) = two_words(rest) else {
        return Ok(None);
    };
    let Some(file) = fields::file(file) else {
        return Ok(None);
    };
    let Some((site, rest)) = two_words(rest) else {
        return Ok(None);
    };
    let Some(site) = any_site(site) else {
        return Ok(None);
    };
    let Some((stamp, rest)) = two_words(rest) else {
        return Ok(None);
    };
    let Some(stamp) = fields::stamp(stamp) else {
        return Ok(None);
    };
    let Some((parents, rest)) = two_words(rest) else {
        return Ok(None);
    };
    let Some(parents) = lists::stamps(alloc, parents)? else {
        return Ok(None);
    };
    let Some(content) = lists::data(alloc, rest, FILE_BYTES)? else {
        return Ok(None);
    };
    Ok(Some(Record::Commit {
        file,
        site,
        stamp,
        parents,
        content,
    }))
}

/// `FILE SITE STAMP`.
pub(crate) fn adopt(rest: &[u8]) -> Option<Record>
    ensures { result ≡ adopt_in rest.now }
{
    let (file, rest) = two_words(rest)?;
    let file = fields::file(file)?;
    let (site, rest) = two_words(rest)?;
    let site = any_site(site)?;
    let stamp = fields::stamp(rest)?;
    Some(Record::Adopt { file, site, stamp })
}
