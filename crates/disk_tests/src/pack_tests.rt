use crate::checks::holds;
use crate::packs::{
    adopt, adopt_first_page, byte_at, commit_first_page, new_disk, new_pack, page_and_half,
    page_place, second_inode,
};
use inode_pack::Pack;
use locus_ids::{Ino, ItemList};

#[test]
fn a_pack_has_what_was_adopted_and_committed(rt: HostRuntime) {
    let ino = second_inode(&rt);
    let mut disk = new_disk(&rt, rt.alloc());
    let mut pack = new_pack(&rt, rt.alloc(), &mut disk);
    holds(
        &rt,
        [pack.free_pages(), u16::from(pack.group())] == [3_072, 0],
    );
    let first = page_and_half(&rt, rt.alloc(), 7);
    adopt(&rt, &mut pack, &mut disk, ino, &first);
    holds(&rt, pages_of(&pack, ino) == [0, 1, 0xFFFF]);
    holds(&rt, pack.free_pages() == 3_070);
    let second = page_and_half(&rt, rt.alloc(), 9);
    commit_first_page(&rt, &mut pack, &mut disk, second.as_slice());
    // The first page is the least free one; the other one stays.
    holds(&rt, pages_of(&pack, ino) == [2, 1, 0xFFFF]);
    holds(&rt, pack.free_pages() == 3_070);
}

#[test]
fn an_adoption_writes_the_pages_that_came_alone(rt: HostRuntime) {
    let ino = second_inode(&rt);
    let mut disk = new_disk(&rt, rt.alloc());
    let mut pack = new_pack(&rt, rt.alloc(), &mut disk);
    let first = page_and_half(&rt, rt.alloc(), 7);
    adopt(&rt, &mut pack, &mut disk, ino, &first);
    let second = page_and_half(&rt, rt.alloc(), 9);
    adopt_first_page(&rt, &mut pack, &mut disk, second.as_slice());
    // The first page is the least free one; the other one stays, with the bytes that it had.
    holds(&rt, pages_of(&pack, ino) == [2, 1, 0xFFFF]);
    holds(&rt, byte_at(&rt, &mut disk, page_place(&rt, 2, 0)) == 9);
    holds(&rt, byte_at(&rt, &mut disk, page_place(&rt, 1, 0)) == 7);
    holds(&rt, pack.free_pages() == 3_070);
}

/// The first data pages of an inode's version.
fn pages_of(pack: &Pack, ino: Ino) -> [u16; 3] {
    match pack.copy(ino.get()) {
        Some(slot) => [slot.pages[0], slot.pages[1], slot.pages[2]],
        None => [0; 3],
    }
}

#[test]
fn a_new_inode_is_neither_in_a_slot_nor_held(rt: HostRuntime) {
    let mut disk = new_disk(&rt, rt.alloc());
    let pack = new_pack(&rt, rt.alloc(), &mut disk);
    let mut held = ItemList::new(rt.alloc());
    // Inode 1 is the root.
    holds(&rt, pack.next_ino(&held) == Ino::new(2));
    held.push(second_inode(&rt)).expect(&rt, "no memory");
    holds(&rt, pack.next_ino(&held) == Ino::new(3));
}
