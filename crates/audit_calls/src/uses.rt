ghost use Rattle.std.specs.Prelude.{◌≡◌, ◌==◌, ◌&&◌, reverse};
ghost use Rattle.std.specs.List.{find};
ghost use Rattle.std.specs.Option.{option_copied};
ghost use Rattle.trace_book.specs.Same.{same_epoch, same_serial};
ghost use Rattle.promises.specs.Past.{is_close, is_on};
ghost use Rattle.audit_calls.specs.Uses.{has_turn, is_use, sought_key, use_key, user_key};

use crate::CallRow;
use key_places::Key;
use locus_ids::{EpochId, Serial};
use trace_book::{Beginning, Call};

/// A use of an instance by a descriptor: the one of this turn, or where there is none its close.
#[derive(Clone, Copy)]
pub(crate) struct Use {
    pub(crate) epoch: EpochId,
    pub(crate) inst: Serial,
    pub(crate) turn: Option<u32>,
}

/// What a call is found by that uses an instance.
pub(crate) fn use_key(row: &CallRow) -> Key
    ensures { result ≡ use_key row.now }
{
    match row.begins() {
        Beginning::Uses { epoch, inst } => {
            if is_close(row.words()) {
                user_key(*epoch, *inst, 0)
            } else {
                user_key(*epoch, *inst, row.turn())
            }
        }
        _ => Key {
            first: 0,
            second: 0,
            third: 0,
            fourth: 0,
        },
    }
}

/// What the call of this use is found by.
pub(crate) fn sought_key(sought: Use) -> Key
    ensures { result ≡ sought_key sought }
{
    match sought.turn {
        Some(turn) => user_key(sought.epoch, sought.inst, turn),
        None => user_key(sought.epoch, sought.inst, 0),
    }
}

fn user_key(epoch: EpochId, inst: Serial, turn: u32) -> Key
    ensures { result ≡ user_key epoch inst turn }
{
    Key {
        first: epoch.number,
        second: epoch.boot,
        third: inst.serial,
        fourth: u32::from(inst.us) + 256 * u32::from(epoch.site) + 65_536 * (turn % 65_536),
    }
}

/// The call is this use.
pub(crate) fn is_use(sought: Use, row: &CallRow) -> bool
    ensures { result ≡ is_use sought row.now }
{
    is_on(row.begins(), sought.epoch, sought.inst) && has_turn(sought.turn, row)
}

fn has_turn(turn: Option<u32>, row: &CallRow) -> bool
    ensures { result ≡ has_turn turn row.now }
{
    match turn {
        Some(turn) => !is_close(row.words()) && row.turn() == turn,
        None => is_close(row.words()),
    }
}

fn is_on(begins: &Beginning, epoch: EpochId, inst: Serial) -> bool
    ensures { result ≡ is_on begins.now epoch inst }
{
    match begins {
        Beginning::Uses {
            epoch: of,
            inst: used,
        } => is_instance(*of, *used, epoch, inst),
        _ => false,
    }
}

fn is_instance(of: EpochId, used: Serial, epoch: EpochId, inst: Serial) -> bool
    ensures { result ≡ (same_epoch of epoch && same_serial used inst) }
{
    let same_epoch = of.number == epoch.number && of.site == epoch.site && of.boot == epoch.boot;
    same_epoch && (used.us == inst.us && used.serial == inst.serial)
}

fn is_close(words: &Call) -> bool
    ensures { result ≡ is_close words.now }
{
    match words {
        Call::Close { fd: _ } => true,
        _ => false,
    }
}

/// The newest call that is this use, where each is looked at in turn.
pub(crate) fn newest(rows: &[CallRow], sought: Use) -> Option<&CallRow>
    ensures { option_copied result ≡ find (is_use sought) (reverse rows.now) }
{
    let mut left = rows.len();
    while left > 0 {
        left -= 1;
        let row = &rows[left];
        if is_use(sought, row) {
            return Some(row);
        }
    }
    None
}
