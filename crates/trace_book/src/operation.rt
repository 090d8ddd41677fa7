ghost use Rattle.std.specs.Prelude.{◌≡◌, IfOk};

use locus_ids::{Bytes, Kind, NoMemory, Refusal, Stamp};

/// An operation on an open instance.
#[derive(Clone)]
pub enum Op {
    /// Asks that the name has no live entry, and that an entry for it fits.
    Probe { name: Bytes },
    Find { component: Bytes },
    Insert { name: Bytes, ino: u16, kind: Kind },
    Remove { name: Bytes, ino: u16 },
    Rename { component: Bytes, name: Bytes },
    /// Asks that the directory shows no name.
    Empty,
    Read { at: u32, len: u16 },
    Write { at: u32, bytes: Bytes },
    Cut { len: u32 },
    Commit,
    Abort,
    Mend,
}

// Taken apart in one place: where an operation is dropped, the prover sees one call.
impl Drop for Op {
    fn drop(self) {
        match self {
            Op::Probe { name: _ }
            | Op::Find { component: _ }
            | Op::Insert {
                name: _,
                ino: _,
                kind: _,
            }
            | Op::Remove { name: _, ino: _ }
            | Op::Rename {
                component: _,
                name: _,
            }
            | Op::Empty
            | Op::Read { at: _, len: _ }
            | Op::Write { at: _, bytes: _ }
            | Op::Cut { len: _ }
            | Op::Commit
            | Op::Abort
            | Op::Mend => {}
        }
    }
}

/// What an operation gave.
#[derive(Clone, Drop)]
pub enum Outcome {
    Done,
    Found { ino: u16, kind: Kind },
    Data { bytes: Bytes },
    Committed { stamp: Stamp },
    No { why: Refusal },
}

/// What a Look asks of a directory or a file.
#[derive(Clone, Drop)]
pub enum What {
    Name { component: Bytes },
    List,
    Stat,
    /// The whole content of this version.
    Whole { stamp: Stamp },
}

/// What the synchronization site answers a Look: the version that is served, or a refusal.
#[derive(Clone, Drop)]
pub enum Served {
    At { stamp: Stamp },
    No { why: Refusal },
}

impl Op {
    /// An equal operation.
    pub fn copy(&self) -> Result<Op, NoMemory>
        ensures { IfOk result (λ made. made ≡ self.now) }
    {
        let copy = self.clone()?;
        Ok(copy)
    }
}

impl Outcome {
    /// An equal outcome.
    pub fn copy(&self) -> Result<Outcome, NoMemory>
        ensures { IfOk result (λ made. made ≡ self.now) }
    {
        let copy = self.clone()?;
        Ok(copy)
    }
}

impl What {
    /// An equal what.
    pub fn copy(&self) -> Result<What, NoMemory>
        ensures { IfOk result (λ made. made ≡ self.now) }
    {
        let copy = self.clone()?;
        Ok(copy)
    }
}

impl Served {
    /// An equal answer.
    pub fn copy(&self) -> Result<Served, NoMemory>
        ensures { IfOk result (λ made. made ≡ self.now) }
    {
        let copy = self.clone()?;
        Ok(copy)
    }
}
