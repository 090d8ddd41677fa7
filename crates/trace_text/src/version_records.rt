// What a trace tells of versions, as text at the end.
ghost use Rattle.std.specs.Prelude.{◌≡◌, ℕ, List, ◌++◌, OnOk};
ghost use Rattle.trace_book.specs.Text.{record_text};
ghost use Rattle.trace_book.specs.declared.record.Record.TheVariants.{Commit, Release, Adopt};

use crate::lists::push_stamps;
use crate::phrases::{
    push_next_file, push_next_hex, push_next_number, push_next_serial, push_next_stamp,
    push_word_epoch, push_word_file,
};
use crate::pieces::push_optional_stamp;
use locus_ids::{Bytes, EpochId, FileId, NoMemory, Serial, Stamp, Stamps};

pub fn push_commit(
    out: &mut Bytes,
    file: FileId,
    site: u8,
    stamp: Stamp,
    parents: &Stamps,
    content: &Bytes,
) -> Result<(), NoMemory>
    ensures { OnOk result (out.new ≡ out.old ++ record_text (Commit file site stamp parents.now content.now)) }
{
    push_word_file(out, b"commit ", file)?;
    push_next_number(out, site as u32)?;
    push_next_stamp(out, stamp)?;
    out.push(b' ')?;
    push_stamps(out, parents.as_slice())?;
    push_next_hex(out, content)
}

pub fn push_release(
    out: &mut Bytes,
    epoch: EpochId,
    inst: Serial,
    file: FileId,
    stamp: Option<Stamp>,
) -> Result<(), NoMemory>
    ensures { OnOk result (out.new ≡ out.old ++ record_text (Release epoch inst file stamp)) }
{
    push_word_epoch(out, b"release ", epoch)?;
    push_next_serial(out, inst)?;
    push_next_file(out, file)?;
    out.push(b' ')?;
    push_optional_stamp(out, stamp)
}

pub fn push_adopt(out: &mut Bytes, file: FileId, site: u8, stamp: Stamp) -> Result<(), NoMemory>
    ensures { OnOk result (out.new ≡ out.old ++ record_text (Adopt file site stamp)) }
{
    push_word_file(out, b"adopt ", file)?;
    push_next_number(out, site as u32)?;
    push_next_stamp(out, stamp)
}
