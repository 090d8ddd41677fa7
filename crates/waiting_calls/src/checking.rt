// Which waiting call an answer is for: only the current request takes one, and only of its sort.
ghost use Rattle.std.specs.Prelude.{◌≡◌};
ghost use Rattle.role_steps.specs.Tables.{first_that};
ghost use Rattle.role_steps.specs.Using.{answers_op, answers_what, asks_close_of, asks_held_number, asks_op_number, asks_open_of, asks_take};
ghost use Rattle.waiting_calls.specs.Rows.{asks_look, asks_whole, key_of};

use crate::waiting::Waiting;
use keyed_tables::Keyed;
use role_steps::Asking;
use trace_book::{Op, Outcome, What};
use wire_messages::LookAnswer;

/// The key of the call that asks the open of this serial number.
pub fn open_asker(serial: u32, rows: &[Waiting]) -> Option<u64>
    ensures { result ≡ key_of (first_that (asks_open_of serial) rows.now) }
{
    for waiting in rows {
        if asks_open_of(serial, waiting) {
            return Some(waiting.key());
        }
    }
    None
}

/// The key of the call that asks the operation of this number, to which this is an answer.
pub fn op_asker(serial: u32, number: u32, outcome: &Outcome, rows: &[Waiting]) -> Option<u64>
    ensures { result ≡ key_of (first_that (asks_op_number serial number outcome.now) rows.now) }
{
    for waiting in rows {
        if asks_op_number(serial, number, outcome, waiting) {
            return Some(waiting.key());
        }
    }
    None
}

/// The key of the call that asks the operation of this number, a read whose bytes are at the site.
pub fn held_asker(serial: u32, number: u32, rows: &[Waiting]) -> Option<u64>
    ensures { result ≡ key_of (first_that (asks_held_number serial number) rows.now) }
{
    for waiting in rows {
        if asks_held_number(serial, number, waiting) {
            return Some(waiting.key());
        }
    }
    None
}

/// The key of the call that asks the close of this instance.
pub fn close_asker(serial: u32, rows: &[Waiting]) -> Option<u64>
    ensures { result ≡ key_of (first_that (asks_close_of serial) rows.now) }
{
    for waiting in rows {
        if asks_close_of(serial, waiting) {
            return Some(waiting.key());
        }
    }
    None
}

/// The key of the call that asks this take of this look, to which this is an answer.
pub fn look_asker(
    call: u32,
    request: u16,
    take: u32,
    answer: &LookAnswer,
    rows: &[Waiting],
) -> Option<u64>
    ensures { result ≡ key_of (first_that (asks_take call request take answer.now) rows.now) }
{
    for waiting in rows {
        if asks_take(call, request, take, answer, waiting) {
            return Some(waiting.key());
        }
    }
    None
}

pub fn asks_open_of(serial: u32, waiting: &Waiting) -> bool
    ensures { result ≡ asks_open_of serial waiting.now }
{
    match &waiting.asking {
        Asking::Open { serial: asked, .. } => *asked == serial,
        _ => false,
    }
}

fn asks_op_number(serial: u32, number: u32, outcome: &Outcome, waiting: &Waiting) -> bool
    ensures { result ≡ asks_op_number serial number outcome.now waiting.now }
{
    match &waiting.asking {
        Asking::Op {
            serial: asked,
            number: n,
            op,
            ..
        } => *asked == serial && (*n == number && answers_op(op, outcome)),
        _ => false,
    }
}

fn asks_held_number(serial: u32, number: u32, waiting: &Waiting) -> bool
    ensures { result ≡ asks_held_number serial number waiting.now }
{
    if waiting.caller.copied.is_none() {
        return false;
    }
    match &waiting.asking {
        Asking::Op {
            serial: asked,
            number: n,
            op: Op::Read { .. },
            ..
        } => *asked == serial && *n == number,
        _ => false,
    }
}

fn asks_close_of(serial: u32, waiting: &Waiting) -> bool
    ensures { result ≡ asks_close_of serial waiting.now }
{
    match &waiting.asking {
        Asking::Close { serial: asked, .. } => *asked == serial,
        _ => false,
    }
}

fn asks_take(call: u32, request: u16, take: u32, answer: &LookAnswer, waiting: &Waiting) -> bool
    ensures { result ≡ asks_take call request take answer.now waiting.now }
{
    waiting.caller.call == call
        && (waiting.caller.request == request && asks_look(take, answer, &waiting.asking))
}

fn asks_look(take: u32, answer: &LookAnswer, asking: &Asking) -> bool
    ensures { result ≡ asks_look take answer.now asking.now }
{
    match asking {
        Asking::Look {
            file: _,
            what,
            take: asked,
        } => *asked == take && answers_what(what, answer),
        _ => false,
    }
}

/// The result is of the sort that the operation gives.
fn answers_op(op: &Op, outcome: &Outcome) -> bool
    ensures { result ≡ answers_op op.now outcome.now }
{
    match op {
        Op::Find { component: _ } => matches!(outcome, Outcome::No { .. } | Outcome::Found { .. }),
        Op::Read { at: _, len: _ } => matches!(outcome, Outcome::No { .. } | Outcome::Data { .. }),
        Op::Commit => matches!(outcome, Outcome::No { .. } | Outcome::Committed { .. }),
        _ => matches!(outcome, Outcome::No { .. } | Outcome::Done),
    }
}

/// The answer is of the sort that the look asks, or says that the version was there no more.
fn answers_what(what: &What, answer: &LookAnswer) -> bool
    ensures { result ≡ answers_what what.now answer.now }
{
    match answer {
        LookAnswer::Moved => true,
        LookAnswer::No { why: _ } => true,
        LookAnswer::Found { .. } => matches!(what, What::Name { .. }),
        LookAnswer::Content { .. } => matches!(what, What::List | What::Whole { .. }),
        LookAnswer::Stat { .. } => matches!(what, What::Stat),
    }
}

/// It looks at the whole content of a version.
pub fn is_whole(asking: &Asking) -> bool
    ensures { result ≡ asks_whole asking.now }
{
    match asking {
        Asking::Look {
            what: What::Whole { .. },
            ..
        } => true,
        _ => false,
    }
}
