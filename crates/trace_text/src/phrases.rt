// Each of these adds a word and what stands behind it, or a space and one piece.
ghost use Rattle.std.specs.Prelude.{◌≡◌, ℕ, List, ◌++◌, OnOk};
ghost use Rattle.trace_book.specs.Text.{call_id_text, epoch_text, file_text, gap, hex_text, number, serial_text, stamp_text};

use crate::pieces::{
    push_call_id, push_epoch, push_file, push_hex, push_number, push_serial, push_stamp,
};
use locus_ids::{Bytes, CallId, EpochId, FileId, NoMemory, Serial, Stamp};

pub fn push_word_text(out: &mut Bytes, word: &[u8], text: &Bytes) -> Result<(), NoMemory>
    ensures { OnOk result (out.new ≡ out.old ++ (word.now ++ text.now)) }
{
    out.append(word)?;
    out.append(text.as_slice())
}

pub fn push_word_texts(
    out: &mut Bytes,
    word: &[u8],
    one: &Bytes,
    other: &Bytes,
) -> Result<(), NoMemory>
    ensures { OnOk result (out.new ≡ out.old ++ (word.now ++ one.now ++ gap ++ other.now)) }
{
    push_word_text(out, word, one)?;
    out.push(b' ')?;
    out.append(other.as_slice())
}

pub fn push_word_number(out: &mut Bytes, word: &[u8], n: u32) -> Result<(), NoMemory>
    ensures { OnOk result (out.new ≡ out.old ++ (word.now ++ number n)) }
{
    out.append(word)?;
    push_number(out, n)
}

pub fn push_word_numbers(out: &mut Bytes, word: &[u8], one: u32, other: u32) -> Result<(), NoMemory>
    ensures { OnOk result (out.new ≡ out.old ++ (word.now ++ number one ++ gap ++ number other)) }
{
    push_word_number(out, word, one)?;
    push_next_number(out, other)
}

pub fn push_word_hex(out: &mut Bytes, word: &[u8], bytes: &Bytes) -> Result<(), NoMemory>
    ensures { OnOk result (out.new ≡ out.old ++ (word.now ++ hex_text bytes.now)) }
{
    out.append(word)?;
    push_hex(out, bytes.as_slice())
}

pub fn push_word_stamp(out: &mut Bytes, word: &[u8], stamp: Stamp) -> Result<(), NoMemory>
    ensures { OnOk result (out.new ≡ out.old ++ (word.now ++ stamp_text stamp)) }
{
    out.append(word)?;
    push_stamp(out, stamp)
}

pub fn push_word_epoch(out: &mut Bytes, word: &[u8], epoch: EpochId) -> Result<(), NoMemory>
    ensures { OnOk result (out.new ≡ out.old ++ (word.now ++ epoch_text epoch)) }
{
    out.append(word)?;
    push_epoch(out, epoch)
}

pub fn push_word_file(out: &mut Bytes, word: &[u8], file: FileId) -> Result<(), NoMemory>
    ensures { OnOk result (out.new ≡ out.old ++ (word.now ++ file_text file)) }
{
    out.append(word)?;
    push_file(out, file)
}

pub fn push_next_number(out: &mut Bytes, n: u32) -> Result<(), NoMemory>
    ensures { OnOk result (out.new ≡ out.old ++ (gap ++ number n)) }
{
    out.push(b' ')?;
    push_number(out, n)
}

pub fn push_next_hex(out: &mut Bytes, bytes: &Bytes) -> Result<(), NoMemory>
    ensures { OnOk result (out.new ≡ out.old ++ (gap ++ hex_text bytes.now)) }
{
    out.push(b' ')?;
    push_hex(out, bytes.as_slice())
}

pub fn push_next_stamp(out: &mut Bytes, stamp: Stamp) -> Result<(), NoMemory>
    ensures { OnOk result (out.new ≡ out.old ++ (gap ++ stamp_text stamp)) }
{
    out.push(b' ')?;
    push_stamp(out, stamp)
}

pub fn push_next_file(out: &mut Bytes, file: FileId) -> Result<(), NoMemory>
    ensures { OnOk result (out.new ≡ out.old ++ (gap ++ file_text file)) }
{
    out.push(b' ')?;
    push_file(out, file)
}

pub fn push_next_epoch(out: &mut Bytes, epoch: EpochId) -> Result<(), NoMemory>
    ensures { OnOk result (out.new ≡ out.old ++ (gap ++ epoch_text epoch)) }
{
    out.push(b' ')?;
    push_epoch(out, epoch)
}

pub fn push_next_call(out: &mut Bytes, call: CallId) -> Result<(), NoMemory>
    ensures { OnOk result (out.new ≡ out.old ++ (gap ++ call_id_text call)) }
{
    out.push(b' ')?;
    push_call_id(out, call)
}

pub fn push_next_serial(out: &mut Bytes, inst: Serial) -> Result<(), NoMemory>
    ensures { OnOk result (out.new ≡ out.old ++ (gap ++ serial_text inst)) }
{
    out.push(b' ')?;
    push_serial(out, inst)
}
