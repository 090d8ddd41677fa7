ghost use Rattle.std.specs.Prelude.{◌≡◌, ◌∷◌, IfOk};
ghost use Rattle.tree_model.specs.Opening.{is_given_by};
ghost use Rattle.tree_model.specs.Tree.{without_number};

use locus_ids::sizes::SITE_INODES;
use locus_ids::{ItemList, NoMemory};
use std::alloc::Global;

/// The inode number is one of those that the site gives to new files.
pub fn is_given_by(site: u8, ino: u16) -> bool
    ensures { result ≡ is_given_by site ino }
{
    let last = SITE_INODES as u32 * u32::from(site);
    let ino = u32::from(ino);
    last < ino + SITE_INODES as u32 && (ino <= last && 1 < ino)
}

/// The numbers but this one.
pub fn without_number(alloc: Global, numbers: &[u8], number: u8) -> Result<ItemList<u8>, NoMemory>
    ensures { IfOk result (λ made. made ≡ without_number number numbers.now) }
{
    let mut made = ItemList::new(alloc);
    for other in numbers {
        if *other != number {
            made.push(*other)?;
        }
    }
    Ok(made)
}

/// The number, and then the others without it.
pub fn with_first(alloc: Global, numbers: &[u8], number: u8) -> Result<ItemList<u8>, NoMemory>
    ensures { IfOk result (λ made. made ≡ number ∷ without_number number numbers.now) }
{
    let mut made = ItemList::new(alloc);
    made.push(number)?;
    for other in numbers {
        if *other != number {
            made.push(*other)?;
        }
    }
    Ok(made)
}
