ghost use Rattle.std.specs.Prelude.{◌≡◌, [], IfOk};
ghost use Rattle.locus_ids.specs.declared.ids.Kind.TheVariants.{Dir};
ghost use Rattle.call_rules.specs.Walks.{root_of, walk};
ghost use Rattle.path_walk.specs.Walks.{walked};

use crate::mounts::{mounted_in, root_of};
use call_rules::Answer;
use locus_ids::{Bytes, FileId, Kind, Mount, NoMemory, Refusal};

/// Where a walk has come.
#[derive(Drop)]
pub enum Walked<'a> {
    /// It looks for a component in a directory.
    Asks {
        dir: FileId,
        name: &'a [u8],
    },
    /// It is refused.
    Fails {
        why: Refusal,
    },
    /// It is there, with the answers that are left.
    There {
        file: FileId,
        kind: Kind,
        answers: &'a [Answer],
    },
    /// Its looks are not answered so.
    Strays,
}

/// A walk along components from the root of group 0, with what its looks were answered so far. A mount of that root is
/// passed without a look, and only a directory has components after it.
pub fn walk<'a>(
    mounts: &[Mount],
    names: &'a [Bytes],
    answers: &'a [Answer],
) -> Result<Walked<'a>, NoMemory>
    ensures { IfOk result (λ w. walked w ≡ walk mounts.now names.now [] (root_of 0) Dir answers.now) }
{
    walk_from(mounts, names, &[], root_of(0), Kind::Dir, answers)
}

/// A walk from a file along components, of which `reached` led to the file.
fn walk_from<'a>(
    mounts: &[Mount],
    names: &'a [Bytes],
    reached: &[u8],
    at: FileId,
    kind: Kind,
    answers: &'a [Answer],
) -> Result<Walked<'a>, NoMemory>
    ensures { IfOk result (λ w. walked w ≡ walk mounts.now names.now reached.now at kind answers.now) }
{
    let [name, names @ ..] = names else {
        return Ok(Walked::There {
            file: at,
            kind,
            answers,
        });
    };
    if let Kind::File = kind {
        let name = Bytes::from_slice(name.allocator(), reached)?;
        let why = Refusal::NotDir { name };
        return Ok(Walked::Fails { why });
    }
    if let Some(group) = mounted_in(mounts, at, name.as_slice()) {
        let root = root_of(group);
        return walk_from(mounts, names, name.as_slice(), root, Kind::Dir, answers);
    }
    match answers {
        [] => Ok(Walked::Asks {
            dir: at,
            name: name.as_slice(),
        }),
        [Answer::Entered { ino, kind }, answers @ ..] => {
            let file = FileId {
                group: at.group,
                ino: *ino,
            };
            walk_from(mounts, names, name.as_slice(), file, *kind, answers)
        }
        [Answer::Refused { why }, ..] => {
            let why = why.copy()?;
            Ok(Walked::Fails { why })
        }
        _ => Ok(Walked::Strays),
    }
}
