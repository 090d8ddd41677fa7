ghost use Rattle.std.specs.Prelude.{◌≡◌};

use locus_ids::NoMemory;
use thiserror::Error;
use tree_acts::ActFault;

/// What the tree says of a record.
#[derive(Clone, Copy)]
pub enum Applied {
    /// It is a step of the tree, and the tree gives it.
    Follows,
    /// It is a step of the tree, which the tree doesn't give. The tree stays as it was.
    Differs,
    /// It is no step of this tree.
    Other,
}

/// Why a record was not taken.
#[derive(Clone, Copy, Debug, Error)]
pub enum TreeFault {
    /// No lawful trace has it, as `OneTree::apply` says.
    #[error("a record or a history that can't be judged")]
    Unfit,
    #[error("no memory")]
    NoMemory,
}

impl From<NoMemory> for TreeFault {
    ghost use Rattle.one_tree.specs.declared.applied.TreeFault.TheVariants.{NoMemory};

    ghost from_gives = { λ _ fault. fault ≡ NoMemory };

    fn from(_: NoMemory) -> TreeFault {
        TreeFault::NoMemory
    }
}

impl From<ActFault> for TreeFault {
    ghost use Rattle.one_tree.specs.Unfit.{fault_of_act};

    ghost from_gives = { λ refused fault. fault ≡ fault_of_act refused };

    fn from(refused: ActFault) -> TreeFault {
        match refused {
            ActFault::Unfit => TreeFault::Unfit,
            ActFault::NoMemory => TreeFault::NoMemory,
        }
    }
}
