ghost use Rattle.std.specs.Prelude.{◌≡◌, None, cond};
ghost use Rattle.role_steps.specs.declared.users.Asking.{Asking};
ghost use Rattle.call_rules.specs.Opening.{is_steady};
ghost use Rattle.role_steps.specs.Using.{last_opened, last_version, mode_asked, opened_row};
ghost use Rattle.waiting_calls.specs.Called.{called};

use crate::caller::Caller;
use call_rules::Answer;
use locus_ids::{Mode, Serial};
use role_steps::DescriptorRow;
use site_frame::SiteFrame;
use trace_book::{Call, Descriptor, OneVersion, OpenMode};

/// The descriptor that an open takes, or that a read holds again, with the version that it keeps.
pub fn opened_row(
    frame: &SiteFrame,
    caller: &Caller,
    fd: u16,
    kept: Option<OneVersion>,
) -> DescriptorRow
    ensures { (a : Asking) → result ≡ opened_row frame.now (called caller.now a) fd kept }
{
    let none = Serial { us: 0, serial: 0 };
    DescriptorRow {
        process: caller.process,
        fd,
        descriptor: Descriptor {
            mode: mode_asked(caller.script.words()),
            epoch: frame.epoch,
            inst: last_opened(none, caller.script.answers()),
            steady: kept,
        },
    }
}

fn mode_asked(words: &Call) -> Mode
    ensures { result ≡ mode_asked words.now }
{
    match words {
        Call::Open { path: _, mode } => match mode {
            OpenMode::Read => Mode::Read,
            OpenMode::Write => Mode::Write,
            OpenMode::Resolve { site: _ } => Mode::Resolve,
            OpenMode::Steady => Mode::Read,
        },
        _ => Mode::Read,
    }
}

/// The instance that an open was answered last, or this one.
fn last_opened(inst: Serial, answers: &[Answer]) -> Serial
    ensures { result ≡ last_opened inst answers.now }
{
    let [first, answers @ ..] = answers else {
        return inst;
    };
    match first {
        Answer::Opened { inst, ino: _ } => last_opened(*inst, answers),
        Answer::Reading { inst, version: _ } => last_opened(*inst, answers),
        _ => last_opened(inst, answers),
    }
}

/// The version that an open's descriptor keeps: the one that it was granted, where it is steady.
pub fn kept_version(caller: &Caller) -> Option<OneVersion>
    ensures { result ≡ cond (is_steady caller.now.script.words) (last_version None caller.now.script.answers) None }
{
    if is_steady(caller.script.words()) {
        return last_version(None, caller.script.answers());
    }
    None
}

fn is_steady(words: &Call) -> bool
    ensures { result ≡ is_steady words.now }
{
    match words {
        Call::Open { path: _, mode } => matches!(mode, OpenMode::Steady),
        _ => false,
    }
}

/// The version that was opened last to be read, or this one.
fn last_version(last: Option<OneVersion>, answers: &[Answer]) -> Option<OneVersion>
    ensures { result ≡ last_version last answers.now }
{
    let [first, answers @ ..] = answers else {
        return last;
    };
    match first {
        Answer::Reading { inst: _, version } => last_version(Some(*version), answers),
        _ => last_version(last, answers),
    }
}
