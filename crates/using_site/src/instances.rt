ghost use Rattle.std.specs.Prelude.{◌≡◌};
ghost use Rattle.role_steps.specs.Requests.{opened_serial, seen_by, vector_opened};

use crate::users::UsingSite;
use call_rules::Answer;
use locus_ids::sizes::SITES;
use trace_book::Op;
use version_vector::Vector;

impl UsingSite {
    /// What an operation has seen of its entry: for a remove, the version on which its call opened the file that the entry
    /// names; for each other, nothing.
    pub(crate) fn seen_by(&self, answers: &[Answer], op: &Op) -> Vector<SITES>
        ensures { result ≡ seen_by self.now answers.now op.now }
    {
        match op {
            Op::Remove { name: _, ino } => self.vector_opened(opened_serial(*ino, answers)),
            _ => Vector::zero(),
        }
    }

    /// The vector that the open of this serial number was answered.
    fn vector_opened(&self, serial: Option<u32>) -> Vector<SITES>
        ensures { result ≡ vector_opened self.now serial }
    {
        match serial {
            Some(serial) => match self.instance(serial) {
                Some(instance) => instance.vector,
                None => Vector::zero(),
            },
            None => Vector::zero(),
        }
    }
}

/// The serial number of the instance that a call opened of an inode.
fn opened_serial(ino: u16, answers: &[Answer]) -> Option<u32>
    ensures { result ≡ opened_serial ino answers.now }
{
    let [first, answers @ ..] = answers else {
        return None;
    };
    match first {
        Answer::Opened { inst, ino: found } if *found == ino => Some(inst.serial),
        _ => opened_serial(ino, answers),
    }
}
