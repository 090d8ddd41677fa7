ghost use Rattle.std.specs.Prelude.{◌≡◌, ◌++◌, ◌-◌, ◌^◌, IfOk, OnOk};
ghost use Rattle.trace_book.specs.Messages.{is_message, is_number_to, message_name, messages, past, up_to};
ghost use Rattle.trace_book.specs.Text.{number};

use line_text::number;
use locus_ids::{Bytes, CallId, Names, NoMemory};
use path_walk::plain_name;

/// Adds the name of the message that this call puts into its box: `m` and the three numbers of the call's name. After `NoMemory` a
/// front of it may be there.
pub fn message_name(call: &CallId, out: &mut Bytes) -> Result<(), NoMemory>
    ensures { OnOk result (out.new ≡ out.old ++ message_name call.now) }
{
    out.append(b"m")?;
    push_number(out, u32::from(call.site))?;
    out.append(b".")?;
    push_number(out, call.boot)?;
    out.append(b".")?;
    push_number(out, call.n)
}

fn push_number(out: &mut Bytes, n: u32) -> Result<(), NoMemory>
    ensures { OnOk result (out.new ≡ out.old ++ number n) }
{
    let text = n.to_string(out.allocator())?;
    out.append(text.as_bytes())
}

/// Whether a plain name may be that of a message: a site from 1 to 32, a boot and a number from 1 to 4,294,967,295, in decimal without
/// leading zeros.
pub fn is_message(name: &[u8]) -> bool
    ensures { result ≡ is_message name.now }
{
    let [first, numbers @ ..] = name else {
        return false;
    };
    if *first != b'm' {
        return false;
    }
    let (site, others) = split(numbers, b'.');
    let (boot, n) = split(others, b'.');
    is_number_to(site, 32) && (is_number_to(boot, u32::MAX) && is_number_to(n, u32::MAX))
}

fn is_number_to(word: &[u8], most: u32) -> bool
    ensures { result ≡ is_number_to most word.now }
{
    number(word, 1, most).is_some()
}

/// What stands before the first such byte, and what stands after it: all, and nothing, where there is none.
fn split(text: &[u8], byte: u8) -> (&[u8], &[u8])
    ensures before { result.0.now ≡ up_to byte text.now }
    ensures after { result.1.now ≡ past byte text.now }
{
    for i in 0..text.len() {
        if text[i] == byte {
            return (&text[..i], &text[i + 1..]);
        }
    }
    (text, &text[text.len()..])
}

/// Those names, of some that a directory shows, that are names of messages, in their order. A name may have `@` and an inode number after
/// it, where two files of a directory have one name.
pub fn messages(shown: &Names) -> Result<Names, NoMemory>
    ensures { IfOk result (λ made. made ≡ messages shown.now) }
{
    let mut made = Names::new(shown.allocator());
    for name in shown.as_slice() {
        if is_message(plain_name(name.as_slice())) {
            let name = name.copy()?;
            made.push(name)?;
        }
    }
    Ok(made)
}
