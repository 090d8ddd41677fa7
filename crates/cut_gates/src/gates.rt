ghost use Rattle.std.specs.Prelude.{◌≡◌, false, true};
ghost use Rattle.disk_calls.specs.Gates.{gate_left};
ghost use Rattle.disk_calls.specs.Versions.{new_gate};
ghost use Rattle.cut_gates.specs.Cuts.{cut_of};

use schedule_lines::Leave;

/// The byte of an open gate.
const OPEN: u8 = 0xA5;

/// A gate that was shut is open, where the write that opens it was cut off, or the sync after that: the site stopped in the call, which
/// leaves this, or the call failed.
fn is_left_open(leave: Option<Leave>, writing: bool) -> bool
    ensures { result ≡ gate_left (cut_of leave) writing false true }
{
    match leave {
        Some(Leave::Old) => false,
        Some(Leave::New) => true,
        Some(Leave::Byte { byte }) => byte == OPEN,
        None => !writing,
    }
}

/// The gate of a new version of so many pages and page tables is open, where so many calls have passed before the one that was cut
/// off: these come first, then the slot and a sync, and then the gate and its sync. No leave says that the call failed.
pub fn is_new_open(pages: usize, leave: Option<Leave>, passed: u32) -> bool
    ensures { result ≡ new_gate pages (cut_of leave) passed }
{
    let passed = passed as usize;
    if passed < pages {
        return false;
    }
    match passed - pages {
        0 | 1 => false,
        2 => is_left_open(leave, true),
        3 => is_left_open(leave, false),
        _ => true,
    }
}
