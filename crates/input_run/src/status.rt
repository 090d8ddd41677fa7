ghost use Rattle.std.specs.Prelude.{◌≡◌, ℕ};
ghost use Rattle.input_run.specs.Codes.{code_of, limit_word};

use locus_ids::NoMemory;
use locus_io::WriteFault;
use std::io;

/// What a run came to.
#[derive(Clone, Copy)]
pub enum Status {
    /// The whole input was run.
    Ok,
    /// The words are no command.
    BadWords,
    /// The line with this number, from 1, is the first that may not stand where it does.
    BadLine { line: u32 },
    ReadFault,
    WriteFault,
    NoMemory,
    /// A further step would pass a limit.
    Limit { what: Limited },
}

/// What has a limit.
#[derive(Clone, Copy)]
pub enum Limited {
    /// The packets that are sent.
    Packets,
    /// The bytes of the packets that are sent.
    Bytes,
    /// The bytes of the records' texts.
    Trace,
    /// The bytes of a line.
    Line,
    /// The lines.
    Lines,
}

impl Status {
    /// The exit code of the program.
    pub fn code(&self) -> u8
        ensures { result ≡ code_of self.now }
    {
        match self {
            Status::Ok => 0,
            Status::BadWords => 2,
            Status::BadLine { line: _ } => 3,
            Status::ReadFault => 4,
            Status::WriteFault => 5,
            Status::NoMemory => 6,
            Status::Limit { what: _ } => 7,
        }
    }

    /// Says on standard error why a run ended early; nothing where it did not.
    pub fn tell(&self, rt: &impl Eprint) -> io::Result<()> {
        match self {
            Status::Ok => Ok(()),
            Status::BadWords => eprintln!(rt; "locus: bad words"),
            Status::BadLine { line } => eprintln!(rt; "locus: bad line {line}"),
            Status::ReadFault => eprintln!(rt; "locus: read fault"),
            Status::WriteFault => eprintln!(rt; "locus: write fault"),
            Status::NoMemory => eprintln!(rt; "locus: no memory"),
            Status::Limit { what } => {
                let word = what.word();
                eprintln!(rt; "locus: limit {word}")
            }
        }
    }
}

impl Limited {
    /// The limit's name in a message.
    fn word(&self) -> &str
        ensures { result.now ≡ limit_word self.now }
    {
        match self {
            Limited::Packets => "packets",
            Limited::Bytes => "bytes",
            Limited::Trace => "trace",
            Limited::Line => "line",
            Limited::Lines => "lines",
        }
    }
}

impl From<NoMemory> for Status {
    ghost use Rattle.std.specs.Prelude.{◌≡◌};
    ghost use Rattle.input_run.specs.declared.status.Status.TheVariants.{NoMemory as OutOfMemory};

    ghost from_gives = { λ _ e. e ≡ OutOfMemory };

    fn from(_: NoMemory) -> Status {
        Status::NoMemory
    }
}

impl From<WriteFault> for Status {
    ghost use Rattle.std.specs.Prelude.{◌≡◌};
    ghost use Rattle.input_run.specs.Codes.{status_of};

    ghost from_gives = { λ fault status. status ≡ status_of fault };

    fn from(fault: WriteFault) -> Status {
        match fault {
            WriteFault::Failed => Status::WriteFault,
            WriteFault::NoMemory => Status::NoMemory,
        }
    }
}
