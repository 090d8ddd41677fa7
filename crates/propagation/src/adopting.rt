ghost use Rattle.std.specs.Prelude.{◌≡◌, ◌<◌, length};
ghost use Rattle.role_steps.specs.Views.{Frame, SiteView};
ghost use Rattle.role_steps.specs.Adoption.{adopts};
ghost use Rattle.propagation.specs.Choosing.{chooses, without_chosen, verdict_of, LooksAt, adopts_by};

use crate::Puller;
use locus_ids::FileId;
use role_steps::Pull;

/// What the rest of a site says of a pulled version.
pub trait Adopting {
    ghost use Rattle.std.specs.Prelude.{Bool};
    ghost use Rattle.role_steps.specs.declared.pulls.Pull.{Pull};

    ghost ready: { Self → Pull → Bool };

    ghost above: { Self → Pull → Bool };

    /// All its pages are there and have room, and the file has neither an open instance nor a mend here.
    fn is_ready(&self, pull: &Pull) -> bool
        ensures { result ≡ ready self.now pull.now };

    /// It is above the site's own copy of the file, over which it was pulled, or the site has none.
    fn is_above_own(&self, pull: &Pull) -> bool
        ensures { result ≡ above self.now pull.now };
}

/// What becomes of a pull.
#[derive(Clone, Copy, PartialEq, Eq)]
pub enum Verdict {
    Wait,
    Drop,
    Adopt,
}

/// The file of a pull, and what becomes of the pull.
#[derive(Clone, Copy)]
pub struct Look {
    pub file: FileId,
    pub verdict: Verdict,
}

fn judge<T: Adopting>(site: &T, pull: &Pull) -> Verdict
    ensures { result ≡ verdict_of (T.ready site.now) (T.above site.now) pull.now }
{
    if !site.is_ready(pull) {
        Verdict::Wait
    } else if site.is_above_own(pull) {
        Verdict::Adopt
    } else {
        Verdict::Drop
    }
}

impl Puller {
    /// Takes out the pull whose version the site adopts: of those that are ready and above its own copy, that of the least
    /// group and inode. A ready one before it that isn't above the own copy is dropped.
    pub fn choose<T: Adopting>(&mut self, site: &T) -> Option<Pull>
        ensures chosen { result ≡ (chooses (T.ready site.now) (T.above site.now) self.old self.old).chosen }
        ensures left { self.new ≡ without_chosen (chooses (T.ready site.now) (T.above site.now) self.old self.old) }
    {
        let mut place = 0;
        while place < self.len() {
            let look = self.look_at(site, place);
            match look.verdict {
                Verdict::Wait => place += 1,
                Verdict::Drop => self.drop_pull(look.file),
                Verdict::Adopt => return self.take(look.file),
            }
        }
        None
    }

    fn look_at<T: Adopting>(&self, site: &T, place: usize) -> Look
        requires { place < length self.now }
        ensures { LooksAt (T.ready site.now) (T.above site.now) self.now place result }
    {
        let pull = &self.as_slice()[place];
        Look {
            file: pull.file,
            verdict: judge(site, pull),
        }
    }
}

/// The adoption of a site is that of the pull which is chosen.
pub fn adoptions_are_choices()
    ensures { (f : Frame) (v : SiteView) → adopts f v ≡ adopts_by f v }
{}
