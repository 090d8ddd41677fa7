// Each of these adds one piece of text at the end.
ghost use Rattle.std.specs.Prelude.{◌≡◌, ◌<◌, ℕ, List, ◌++◌, OnOk};
ghost use Rattle.trace_book.specs.Text.{call_id_text, cause_text, epoch_text, file_text, hex_text, kind_text, mode_text, number, opening_text, optional_stamp_text, serial_text, stamp_text};

use itoa::Buffer;
use locus_ids::{Bytes, CallId, EpochId, FileId, Kind, Mode, NoMemory, Serial, Stamp};
use trace_book::{OpenMode, StopCause};

/// A number of one digit, as most are.
fn push_digit(out: &mut Bytes, n: u32) -> Result<(), NoMemory>
    requires { n < 10 }
    ensures { OnOk result (out.new ≡ out.old ++ number n) }
{
    out.push(b'0' + n as u8)
}

pub fn push_number(out: &mut Bytes, n: u32) -> Result<(), NoMemory>
    ensures { OnOk result (out.new ≡ out.old ++ number n) }
{
    if n < 10 {
        return push_digit(out, n);
    }
    let mut digits = Buffer::new();
    out.append(digits.format(n).as_bytes())
}

pub fn push_stamp(out: &mut Bytes, stamp: Stamp) -> Result<(), NoMemory>
    ensures { OnOk result (out.new ≡ out.old ++ stamp_text stamp) }
{
    push_number(out, u32::from(stamp.site))?;
    out.push(b'.')?;
    push_number(out, stamp.n)
}

pub fn push_optional_stamp(out: &mut Bytes, stamp: Option<Stamp>) -> Result<(), NoMemory>
    ensures { OnOk result (out.new ≡ out.old ++ optional_stamp_text stamp) }
{
    match stamp {
        Some(stamp) => push_stamp(out, stamp),
        None => out.push(b'-'),
    }
}

pub fn push_file(out: &mut Bytes, file: FileId) -> Result<(), NoMemory>
    ensures { OnOk result (out.new ≡ out.old ++ file_text file) }
{
    push_number(out, u32::from(file.group))?;
    out.push(b'.')?;
    push_number(out, u32::from(file.ino))
}

pub fn push_epoch(out: &mut Bytes, epoch: EpochId) -> Result<(), NoMemory>
    ensures { OnOk result (out.new ≡ out.old ++ epoch_text epoch) }
{
    out.push(b'e')?;
    push_number(out, epoch.number)?;
    out.push(b'.')?;
    push_number(out, u32::from(epoch.site))?;
    out.push(b'.')?;
    push_number(out, epoch.boot)
}

pub fn push_call_id(out: &mut Bytes, call: CallId) -> Result<(), NoMemory>
    ensures { OnOk result (out.new ≡ out.old ++ call_id_text call) }
{
    out.push(b'c')?;
    push_number(out, u32::from(call.site))?;
    out.push(b'.')?;
    push_number(out, call.boot)?;
    out.push(b'.')?;
    push_number(out, call.n)
}

pub fn push_serial(out: &mut Bytes, inst: Serial) -> Result<(), NoMemory>
    ensures { OnOk result (out.new ≡ out.old ++ serial_text inst) }
{
    out.push(b'i')?;
    push_number(out, u32::from(inst.us))?;
    out.push(b'.')?;
    push_number(out, inst.serial)
}

pub fn push_mode(out: &mut Bytes, mode: Mode) -> Result<(), NoMemory>
    ensures { OnOk result (out.new ≡ out.old ++ mode_text mode) }
{
    match mode {
        Mode::Read => out.push(b'r'),
        Mode::Write => out.push(b'w'),
        Mode::Resolve => out.push(b'x'),
        Mode::Mend => out.push(b'm'),
        Mode::Make => out.push(b'n'),
    }
}

pub fn push_opening(out: &mut Bytes, mode: OpenMode) -> Result<(), NoMemory>
    ensures { OnOk result (out.new ≡ out.old ++ opening_text mode) }
{
    match mode {
        OpenMode::Read => out.push(b'r'),
        OpenMode::Write => out.push(b'w'),
        OpenMode::Steady => out.push(b's'),
        OpenMode::Resolve { site } => {
            out.append(b"x ")?;
            push_number(out, u32::from(site))
        }
    }
}

pub fn push_kind(out: &mut Bytes, kind: Kind) -> Result<(), NoMemory>
    ensures { OnOk result (out.new ≡ out.old ++ kind_text kind) }
{
    match kind {
        Kind::File => out.push(b'f'),
        Kind::Dir => out.push(b'd'),
    }
}

pub fn push_cause(out: &mut Bytes, cause: StopCause) -> Result<(), NoMemory>
    ensures { OnOk result (out.new ≡ out.old ++ cause_text cause) }
{
    match cause {
        StopCause::Asked => out.append(b"asked"),
        StopCause::Fuse => out.append(b"fuse"),
        StopCause::Fault => out.append(b"fault"),
    }
}

pub fn push_hex(out: &mut Bytes, bytes: &[u8]) -> Result<(), NoMemory>
    ensures { OnOk result (out.new ≡ out.old ++ hex_text bytes.now) }
{
    if bytes.is_empty() {
        return out.push(b'-');
    }
    let text = hex::encode(out.allocator(), bytes)?;
    out.append(text.as_bytes())
}
