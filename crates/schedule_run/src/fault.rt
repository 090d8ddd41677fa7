use line_text::LineFault;
use locus_ids::NoMemory;
use thiserror::Error;
use world::WorldFault;

/// Why a line was not run.
#[derive(Clone, Copy, Debug, Error)]
pub enum RunFault {
    /// The line may not stand there.
    #[error("bad line")]
    Bad,
    #[error("no memory")]
    NoMemory,
    /// The world could not do the line.
    #[error("the run cannot go on")]
    World(WorldFault),
}

impl From<LineFault> for RunFault {
    ghost use Rattle.std.specs.Prelude.{◌≡◌};
    ghost use Rattle.line_text.specs.declared.fault.LineFault.TheVariants as line;
    ghost use Rattle.world.specs.declared.fault.WorldFault.{WorldFault};
    ghost use Rattle.schedule_run.specs.declared.fault.RunFault.TheVariants.{Bad, World};

    ghost from_gives = { λ fault made. (made ≡ Bad → fault ≡ line.Bad) × ((f : WorldFault) → made ≡ World f → ⊥) };

    fn from(fault: LineFault) -> RunFault {
        match fault {
            LineFault::Bad => RunFault::Bad,
            LineFault::NoMemory => RunFault::NoMemory,
        }
    }
}

impl From<NoMemory> for RunFault {
    ghost use Rattle.std.specs.Prelude.{◌≡◌};
    ghost use Rattle.schedule_run.specs.declared.fault.RunFault.TheVariants.{NoMemory as OutOfMemory};

    ghost from_gives = { λ _ made. made ≡ OutOfMemory };

    fn from(_: NoMemory) -> RunFault {
        RunFault::NoMemory
    }
}

impl From<WorldFault> for RunFault {
    ghost use Rattle.std.specs.Prelude.{◌≡◌};
    ghost use Rattle.schedule_run.specs.declared.fault.RunFault.TheVariants.{World};

    ghost from_gives = { λ fault made. made ≡ World fault };

    fn from(fault: WorldFault) -> RunFault {
        RunFault::World(fault)
    }
}
