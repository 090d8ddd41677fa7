ghost use Rattle.std.specs.Prelude.{◌≡◌, ◌==◌, ◌&&◌, not, cond, IfOk, None, Some};
ghost use Rattle.locus_ids.specs.declared.refusal.Refusal.TheVariants.{NoStorage};
ghost use Rattle.std.specs.Option.{is_none, option_or};
ghost use Rattle.commit_graph.specs.Grants.{grant_refusal, is_read, kept_refusal};
ghost use Rattle.commit_graph.specs.Versions.{same_file};
ghost use Rattle.tree_model.specs.Given.{gives_grant, gives_refusal, is_unnumbered, refuses};
ghost use Rattle.tree_model.specs.Opening.{is_new_file, is_only, is_placed, open_refusal, place_refusal};
ghost use Rattle.tree_model.specs.Same.{is_no_inode, same_version};
ghost use Rattle.tree_model.specs.State.{has_stamp_of, held_at, is_make, is_taken, kept_of, openers};
ghost use Rattle.tree_steps.specs.Answers.{busy_among};

use crate::TreeTables;
use crate::placing::is_site;
use commit_graph::History;
use locus_ids::{CallId, FileId, Mode, NoMemory, Refusal, Serial, Stamp};
use tree_model::Instance;
use tree_tables::{
    has_stamp, is_given_by, is_good_set, is_granted, is_taken, same_refusal, same_version,
    sync_site,
};

impl TreeTables {
    /// The tree gives this grant.
    pub fn gives_grant(
        &self,
        h: &History,
        call: CallId,
        inst: Serial,
        mode: Mode,
        file: FileId,
        stamp: Option<Stamp>,
        ss: u8,
    ) -> Result<bool, NoMemory>
        ensures { IfOk result (λ yes. yes ≡ gives_grant h.now self.now call inst mode file stamp ss) }
    {
        if !self.started {
            return Ok(false);
        }
        if self.open_refusal(h, mode, call, file)?.is_some() {
            return Ok(false);
        }
        if inst.us != call.site || is_granted(self.grants.as_slice(), inst) {
            return Ok(false);
        }
        self.is_placed(h, call, mode, file, stamp, ss)
    }

    /// The tree gives this refusal.
    pub fn gives_refusal(
        &self,
        h: &History,
        call: CallId,
        mode: Mode,
        file: FileId,
        why: &Refusal,
    ) -> Result<bool, NoMemory>
        ensures { IfOk result (λ yes. yes ≡ gives_refusal h.now self.now call mode file why.now) }
    {
        if !self.started || !is_unnumbered(mode, file) {
            return Ok(false);
        }
        match self.open_refusal(h, mode, call, file)? {
            Some(refusal) => Ok(same_refusal(&refusal, why)),
            None => Ok(is_make(mode) && is_no_inode(why) && self.lacks_numbers(call)),
        }
    }

    /// Why an open is refused, or `None` where it isn't.
    fn open_refusal(
        &self,
        h: &History,
        mode: Mode,
        call: CallId,
        file: FileId,
    ) -> Result<Option<Refusal>, NoMemory>
        ensures { IfOk result (λ refusal. refusal ≡ open_refusal h.now self.now mode call file) }
    {
        match mode {
            Mode::Make => self.place_refusal(h, Mode::Make, call, file),
            Mode::Read => self.refusal_in_turn(h, Mode::Read, call, file),
            Mode::Write => self.refusal_in_turn(h, Mode::Write, call, file),
            Mode::Resolve => self.refusal_in_turn(h, Mode::Resolve, call, file),
            Mode::Mend => self.refusal_in_turn(h, Mode::Mend, call, file),
        }
    }

    /// Of a file that is there, first by what is open and kept, then by the place.
    fn refusal_in_turn(
        &self,
        h: &History,
        mode: Mode,
        call: CallId,
        file: FileId,
    ) -> Result<Option<Refusal>, NoMemory>
        ensures { IfOk result (λ refusal. refusal ≡ option_or (grant_refusal mode (openers self.now file) (kept_of h.now self.now file)) (place_refusal h.now self.now mode call file)) }
    {
        match self.grant_refusal(h, mode, file)? {
            Some(refusal) => Ok(Some(refusal)),
            None => self.place_refusal(h, mode, call, file),
        }
    }

    /// The instance that excludes an open, or what the kept versions refuse.
    #[tactic(auto, using(crate::proofs::Refusing::refused_busy, crate::proofs::Refusing::refused_by_kept))]
    fn grant_refusal(
        &self,
        h: &History,
        mode: Mode,
        file: FileId,
    ) -> Result<Option<Refusal>, NoMemory>
        ensures { IfOk result (λ refusal. refusal ≡ grant_refusal mode (openers self.now file) (kept_of h.now self.now file)) }
    {
        match busy(self.instances.as_slice(), file, mode) {
            Some(busy) => Ok(Some(busy)),
            None => {
                let kept = self.kept(h, file)?;
                Ok(kept_refusal(mode, kept.as_slice()))
            }
        }
    }

    /// What refuses an open besides the open instances and the kept versions.
    fn place_refusal(
        &self,
        h: &History,
        mode: Mode,
        call: CallId,
        file: FileId,
    ) -> Result<Option<Refusal>, NoMemory>
        ensures { IfOk result (λ refusal. refusal ≡ place_refusal h.now self.now mode call file) }
    {
        match mode {
            Mode::Resolve => {
                let held = self.held_by(self.resolving_site(call), file.ino);
                let kept = self.kept(h, file)?;
                Ok(unless(has_stamp_of(kept.as_slice(), held)))
            }
            Mode::Make => {
                let set = self.making_set(call);
                Ok(unless(is_good_set(&self.config, &self.members, self.group, set)))
            }
            Mode::Read => Ok(None),
            Mode::Write => Ok(None),
            Mode::Mend => Ok(None),
        }
    }

    /// The open is placed at this site and stands on this version.
    fn is_placed(
        &self,
        h: &History,
        call: CallId,
        mode: Mode,
        file: FileId,
        stamp: Option<Stamp>,
        ss: u8,
    ) -> Result<bool, NoMemory>
        ensures { IfOk result (λ yes. yes ≡ is_placed h.now self.now call mode file stamp ss) }
    {
        match mode {
            Mode::Read => self.is_only_kept(h, file, stamp, ss),
            Mode::Write => self.is_only_kept(h, file, stamp, ss),
            Mode::Resolve => Ok(
                is_site(self.resolving_site(call), ss) && self.holds(ss, file, stamp),
            ),
            Mode::Mend => {
                let place = sync_site(&self.config, self.group, &self.members);
                Ok(is_site(place, ss) && self.holds(ss, file, stamp))
            }
            Mode::Make => Ok(self.is_new_file(call, file, ss) && stamp.is_none()),
        }
    }

    /// The site has just this version of the file in the epoch.
    fn holds(&self, site: u8, file: FileId, stamp: Option<Stamp>) -> bool
        ensures { result ≡ same_version (held_at self.now site file.ino) stamp }
    {
        same_version(self.held_at(site, file.ino), stamp)
    }

    /// The site has the only kept version, which is this.
    fn is_only_kept(
        &self,
        h: &History,
        file: FileId,
        stamp: Option<Stamp>,
        ss: u8,
    ) -> Result<bool, NoMemory>
        ensures { IfOk result (λ yes. yes ≡ (is_only (kept_of h.now self.now file) stamp && same_version (held_at self.now ss file.ino) stamp)) }
    {
        let kept = self.kept(h, file)?;
        Ok(is_only(kept.as_slice(), stamp) && self.holds(ss, file, stamp))
    }

    /// A new number of the storage site of a make.
    fn is_new_file(&self, call: CallId, file: FileId, ss: u8) -> bool
        ensures { result ≡ is_new_file self.now call file ss }
    {
        is_site(self.making_site(call), ss)
            && (is_given_by(ss, file.ino) && self.is_unused(file, ss))
    }

    /// The site has no file of this number, and no instance was granted it.
    fn is_unused(&self, file: FileId, ss: u8) -> bool
        ensures { result ≡ (is_none (held_at self.now ss file.ino) && not (is_taken self.now file)) }
    {
        self.held_at(ss, file.ino).is_none() && !is_taken(self.grants.as_slice(), file)
    }
}

/// A refused make has no number.
fn is_unnumbered(mode: Mode, file: FileId) -> bool
    ensures { result ≡ is_unnumbered mode file }
{
    if is_make(mode) { file.ino == 0 } else { true }
}

pub(crate) fn is_make(mode: Mode) -> bool
    ensures { result ≡ is_make mode }
{
    matches!(mode, Mode::Make)
}

fn is_no_inode(why: &Refusal) -> bool
    ensures { result ≡ is_no_inode why.now }
{
    match why {
        Refusal::NoInode => true,
        _ => false,
    }
}

fn unless(holds: bool) -> Option<Refusal>
    ensures { result ≡ cond holds None (Some NoStorage) }
{
    if holds {
        None
    } else {
        Some(Refusal::NoStorage)
    }
}

fn has_stamp_of(kept: &[Stamp], held: Option<Stamp>) -> bool
    ensures { result ≡ has_stamp_of kept.now held }
{
    match held {
        Some(stamp) => has_stamp(kept, stamp),
        None => false,
    }
}

/// The version is the only one of these.
fn is_only(kept: &[Stamp], stamp: Option<Stamp>) -> bool
    ensures { result ≡ is_only kept.now stamp }
{
    match kept {
        [only] => match stamp {
            Some(stamp) => *only == stamp,
            None => false,
        },
        _ => false,
    }
}

/// What the kept versions refuse.
fn kept_refusal(mode: Mode, kept: &[Stamp]) -> Option<Refusal>
    ensures { result ≡ kept_refusal mode kept.now }
{
    match kept {
        [] => match mode {
            Mode::Make => None,
            _ => Some(Refusal::NoStorage),
        },
        [_only] => match mode {
            Mode::Resolve => Some(Refusal::NoConflict),
            _ => None,
        },
        [a, b, ..] => match mode {
            Mode::Read | Mode::Write => Some(Refusal::Conflict { a: *a, b: *b }),
            _ => None,
        },
    }
}

/// The earliest granted instance of the file that excludes an open.
fn busy(instances: &[Instance], file: FileId, mode: Mode) -> Option<Refusal>
    ensures { result ≡ busy_among mode file instances.now }
{
    for instance in instances {
        if instance.grant.file == file && excludes(mode, instance.grant.mode) {
            return Some(Refusal::Busy {
                site: instance.grant.call.site,
                process: instance.grant.process,
            });
        }
    }
    None
}

/// Two instances of one file exclude each other unless both only read.
fn excludes(mode: Mode, other: Mode) -> bool
    ensures { result ≡ not (is_read mode && is_read other) }
{
    !(matches!(mode, Mode::Read) && matches!(other, Mode::Read))
}
