ghost use Rattle.std.specs.Prelude.{◌≡◌, ◌≤◌, ◌==◌, length, filter, insert, IfOk, IfSome, IfNone, OnOk, OnErr};
ghost use Rattle.commit_graph.specs.Versions.{is_stamp_below};
ghost use Rattle.tree_model.specs.State.{has_stamp, is_brought_below, stamps_of, with_all, with_brought};
ghost use Rattle.tree_model.specs.declared.copy.HeldCopy.{HeldCopy};

use locus_ids::{Brought, ItemList, NoMemory, Stamp, Stamps};
use std::alloc::Global;
use tree_model::HeldCopy;

/// The known versions of an inode, ascending.
pub fn stamps_of(alloc: Global, known: &[Brought], ino: u16) -> Result<Stamps, NoMemory>
    ensures { IfOk result (λ made. made ≡ stamps_of known.now ino) }
{
    let mut made = Stamps::new(alloc);
    for copy in known {
        if copy.ino == ino {
            made.push(copy.stamp)?;
        }
    }
    Ok(made)
}

/// One more version is known. After `NoMemory` the list is as it was.
pub fn note(known: &mut ItemList<Brought>, copy: Brought) -> Result<(), NoMemory>
    ensures ok { OnOk result (known.new ≡ with_brought copy known.old) }
    ensures err { OnErr result (known.new ≡ known.old) }
{
    match place_for(known.as_slice(), copy) {
        Some(place) => known.insert(place, copy),
        None => Ok(()),
    }
}

/// Where the version belongs, or `None` where it stands already.
fn place_for(known: &[Brought], copy: Brought) -> Option<usize>
    ensures new { IfSome result (λ place. insert known.now place copy ≡ with_brought copy known.now) }
    ensures within { IfSome result (λ place. place ≤ length known.now) }
    ensures old { IfNone result (with_brought copy known.now ≡ known.now) }
{
    for (i, other) in known.iter().enumerate() {
        if is_brought_below(copy, *other) {
            return Some(i);
        }
        if copy.ino == other.ino && copy.stamp == other.stamp {
            return None;
        }
    }
    Some(known.len())
}

fn is_brought_below(a: Brought, b: Brought) -> bool
    ensures { result ≡ is_brought_below a b }
{
    a.ino < b.ino || (a.ino == b.ino && is_below(a.stamp, b.stamp))
}

fn is_below(a: Stamp, b: Stamp) -> bool
    ensures { result ≡ is_stamp_below a b }
{
    a.site < b.site || (a.site == b.site && a.n < b.n)
}

/// The known versions, with those that the site has now.
pub fn note_copies(
    known: &mut ItemList<Brought>,
    site: u8,
    copies: &[HeldCopy],
) -> Result<(), NoMemory>
    ensures { OnOk result (known.new ≡ with_all (filter (λ (c : HeldCopy). c.site == site) copies.now) known.old) }
{
    for row in copies {
        if row.site == site {
            let copy = Brought {
                ino: row.ino,
                stamp: row.now,
            };
            note(known, copy)?;
        }
    }
    Ok(())
}

/// The stamp is one of these.
pub fn has_stamp(stamps: &[Stamp], stamp: Stamp) -> bool
    ensures { result ≡ has_stamp stamps.now stamp }
{
    stamps.iter().any(|one| *one == stamp)
}
