use locus_ids::NoMemory;
use run_book::Passed;
use thiserror::Error;
use world::WorldFault;

/// Why a load was not run to its end.
#[derive(Clone, Copy, Debug, Error)]
pub enum LoadFault {
    /// Its run passes this limit.
    #[error("limit")]
    Limit(Passed),
    #[error("no memory")]
    NoMemory,
    /// The world could not do a line.
    #[error("the run cannot go on")]
    World(WorldFault),
}

impl From<NoMemory> for LoadFault {
    ghost use Rattle.std.specs.Prelude.{◌≡◌};
    ghost use Rattle.schedule_run.specs.declared.load_fault.LoadFault.TheVariants.{NoMemory as OutOfMemory};

    ghost from_gives = { λ _ made. made ≡ OutOfMemory };

    fn from(_: NoMemory) -> LoadFault {
        LoadFault::NoMemory
    }
}

impl From<WorldFault> for LoadFault {
    ghost use Rattle.std.specs.Prelude.{◌≡◌};
    ghost use Rattle.schedule_run.specs.declared.load_fault.LoadFault.TheVariants.{World};

    ghost from_gives = { λ fault made. made ≡ World fault };

    fn from(fault: WorldFault) -> LoadFault {
        LoadFault::World(fault)
    }
}
