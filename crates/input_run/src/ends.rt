// What a run comes to where it cannot go on.
ghost use Rattle.std.specs.Prelude.{◌≡◌, None, Some, OnOk, IfErr};
ghost use Rattle.the_run.specs.Worlds.{Limit};
ghost use Rattle.run_book.specs.Ledgers.{limit_in};
ghost use Rattle.input_run.specs.Codes.{limited};
ghost use Rattle.input_run.specs.Ends.{status_of_line, status_of_load as load_status};

use crate::status::{Limited, Status};
use run_book::Passed;
use schedule_run::{LoadFault, RunFault, WorldFault};

/// What a run comes to where a line was not done. In the world of a run nothing is ever wanting but memory.
pub(crate) fn status_of(fault: RunFault, number: u32) -> Status
    requires { (cause : WorldFault) → fault ≡ RunFault.World cause → cause ≡ WorldFault.NoMemory }
    ensures { result ≡ status_of_line fault number }
{
    match fault {
        RunFault::Bad => Status::BadLine { line: number },
        RunFault::NoMemory => Status::NoMemory,
        RunFault::World(WorldFault::NoMemory) => Status::NoMemory,
        RunFault::World(_) => unreachable!(),
    }
}

/// Where a limit was passed, the run ends.
pub(crate) fn stop_past(passed: Option<Passed>) -> Result<(), Status>
    ensures ok { OnOk result (limit_in passed ≡ None) }
    ensures err { IfErr result (λ status. (limit : Limit) × (limit_in passed ≡ Some limit) × (status ≡ Status.Limit (limited limit))) }
{
    let what = match passed {
        Some(Passed::Packets) => Limited::Packets,
        Some(Passed::Bytes) => Limited::Bytes,
        Some(Passed::Trace) => Limited::Trace,
        None => return Ok(()),
    };
    Err(Status::Limit { what })
}

/// What a load comes to where it was not run to its end. Nothing is wanting then but memory.
pub(crate) fn status_of_load(fault: LoadFault) -> Status
    requires { (cause : WorldFault) → fault ≡ LoadFault.World cause → cause ≡ WorldFault.NoMemory }
    ensures { result ≡ load_status fault }
{
    match fault {
        LoadFault::Limit(Passed::Packets) => Status::Limit {
            what: Limited::Packets,
        },
        LoadFault::Limit(Passed::Bytes) => Status::Limit {
            what: Limited::Bytes,
        },
        LoadFault::Limit(Passed::Trace) => Status::Limit {
            what: Limited::Trace,
        },
        LoadFault::NoMemory => Status::NoMemory,
        LoadFault::World(WorldFault::NoMemory) => Status::NoMemory,
        LoadFault::World(_) => unreachable!(),
    }
}
