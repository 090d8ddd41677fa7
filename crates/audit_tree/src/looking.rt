ghost use Rattle.std.specs.Prelude.{◌≡◌, ◌≤◌, length, IfOk};
ghost use Rattle.locus_ids.specs.Sizes.{file_bytes_max};
ghost use Rattle.dir_format.specs.Lookups.{lookup};
ghost use Rattle.lawful_trace.specs.Progress.{entered, found_in};

use crate::last_dir::LastDir;
use call_rules::Answer;
use dir_format::{Dir, LookResult};
use dir_operations::{lookup, shown_names};
use locus_ids::{Bytes, Kind, NoMemory, Refusal, Stamp};
use std::alloc::Global;
use trace_book::What;

impl LastDir {
    /// What a look finds in the content of the version that is served.
    pub fn found_in(
        &mut self,
        kind: Kind,
        stamp: Stamp,
        what: &What,
        content: &[u8],
    ) -> Result<Answer, NoMemory>
        requires { length content.now ≤ file_bytes_max }
        ensures { IfOk result (λ answer. answer ≡ found_in kind stamp what.now content.now) }
    {
        match what {
            What::Name { component } => {
                self.read(content)?;
                entered_in(self.allocator(), self.dir(), component.as_slice())
            }
            What::List => {
                self.read(content)?;
                let names = shown_names(self.allocator(), self.dir())?;
                Ok(Answer::Showed { names })
            }
            What::Stat => Ok(Answer::Described {
                kind,
                size: content.len() as u32,
                stamp,
            }),
            What::Whole { stamp: _ } => Ok(Answer::Brought),
        }
    }
}

/// What a component finds in a directory.
fn entered_in(alloc: Global, dir: &Dir, component: &[u8]) -> Result<Answer, NoMemory>
    ensures { IfOk result (λ answer. answer ≡ entered component.now (lookup dir.now component.now)) }
{
    match lookup(dir, component) {
        LookResult::Found { ino, kind } => Ok(Answer::Entered {
            ino: ino.get(),
            kind,
        }),
        LookResult::Absent => {
            let name = Bytes::from_slice(alloc, component)?;
            Ok(Answer::Refused {
                why: Refusal::Absent { name },
            })
        }
        LookResult::Ambiguous { a, b } => Ok(Answer::Refused {
            why: Refusal::Ambiguous {
                a: a.get(),
                b: b.get(),
            },
        }),
    }
}
