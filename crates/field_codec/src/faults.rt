ghost use Rattle.std.specs.Prelude.{◌≡◌};

use locus_ids::NoMemory;
use thiserror::Error;

/// What is wrong with a field, and the place in the whole, from 0, of the field's first byte.
#[derive(Clone, Copy, Debug, PartialEq, Eq, Error)]
pub enum FieldFault {
    /// Too few bytes are left.
    #[error("the field at {at} is short")]
    Short { at: u32 },
    /// The bytes are there, and their value is not one that may stand there.
    #[error("the field at {at} is out of range")]
    Range { at: u32 },
}

/// Why something could not be read from bytes into memory.
#[derive(Clone, Copy, Debug, Error)]
pub enum ReadError {
    #[error("{0}")]
    Field(FieldFault),
    #[error("no memory")]
    NoMemory,
}

impl From<FieldFault> for ReadError {
    ghost use Rattle.field_codec.specs.declared.faults.ReadError.TheVariants.{Field};

    ghost from_gives = { λ fault error. error ≡ Field fault };

    fn from(fault: FieldFault) -> ReadError {
        ReadError::Field(fault)
    }
}

impl From<NoMemory> for ReadError {
    ghost use Rattle.field_codec.specs.declared.faults.ReadError.TheVariants.{NoMemory};

    ghost from_gives = { λ _ error. error ≡ NoMemory };

    fn from(_: NoMemory) -> ReadError {
        ReadError::NoMemory
    }
}
