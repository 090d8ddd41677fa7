ghost use Rattle.std.specs.Prelude.{◌≡◌, ◌<◌, ℕ, length, slice_index_or};
ghost use Rattle.shadow_pages.specs.declared.base_page.BasePage.{BasePage};

use crate::checks::holds;
use locus_ids::{Bytes, ItemList};
use shadow_pages::{BasePage, PageList, Shadow, ShadowFault};
use std::alloc::Global;
use std::process::Abort;

/// A base of ten bytes, whose one page is handed.
fn ten_bytes<R: Abort>(rt: &R, alloc: Global) -> PageList
    ensures { (j : ℕ) × (j < length result) × ((d : BasePage) → (slice_index_or result j d).page ≡ 0) }
{
    let mut pages = ItemList::new(alloc);
    let bytes = Bytes::from_slice(alloc, &[7; 10]).expect(rt, "no memory");
    pages
        .push(BasePage { page: 0, bytes })
        .expect(rt, "no memory");
    pages
}

/// A content of ten bytes, of which no page is changed.
fn unchanged<R: Abort>(rt: &R, alloc: Global) -> Shadow {
    Shadow::new(alloc, 10).expect(rt, "no memory")
}

/// Writes over a content of one page, which is handed; nothing where it has more.
fn write(
    shadow: &mut Shadow,
    at: u32,
    bytes: &[u8; 3],
    base: &PageList,
    free: u16,
) -> Option<Result<(), ShadowFault>>
    requires { (j : ℕ) × (j < length base.now) × ((d : BasePage) → (slice_index_or base.now j d).page ≡ 0) }
{
    if shadow.size() > 1_024 || at > 2_000 {
        return None;
    }
    Some(shadow.write(at, bytes, base, free))
}

/// Four bytes of a page from a place on; none where it is unchanged.
fn part(shadow: &Shadow, page: u16, at: usize) -> Option<[u8; 4]> {
    let bytes = shadow.page(page)?;
    if at > 1_020 {
        return None;
    }
    Some([bytes[at], bytes[at + 1], bytes[at + 2], bytes[at + 3]])
}

/// The size of a content, how many of its pages are changed, and between which these are.
fn shape(shadow: &Shadow) -> [u32; 4] {
    let hull = shadow.hull();
    [
        shadow.size(),
        u32::from(shadow.changed()),
        hull.first,
        hull.stop,
    ]
}

#[test]
fn a_write_changes_the_pages_that_it_meets(rt: HostRuntime) {
    let base = ten_bytes(&rt, rt.alloc());
    let mut shadow = unchanged(&rt, rt.alloc());
    holds(&rt, shape(&shadow) == [10, 0, 0, 0]);
    holds(&rt, part(&shadow, 0, 0) == None);
    holds(
        &rt,
        write(&mut shadow, 8, &[9, 8, 6], &base, 1) == Some(Ok(())),
    );
    holds(&rt, shape(&shadow) == [11, 1, 0, 1]);
    holds(&rt, part(&shadow, 0, 6) == Some([7, 7, 9, 8]));
    holds(&rt, part(&shadow, 0, 9) == Some([8, 6, 0, 0]));
    shadow.drop_all(5);
    holds(&rt, shape(&shadow) == [5, 0, 0, 0]);
}

#[test]
fn a_gap_is_filled_with_zeros_and_changes_the_last_page(rt: HostRuntime) {
    let base = ten_bytes(&rt, rt.alloc());
    let mut shadow = unchanged(&rt, rt.alloc());
    holds(
        &rt,
        [
            shadow.needed(2_000, 1),
            shadow.needed(3, 4),
            shadow.needed(1_020, 9),
        ] == [2, 1, 2],
    );
    let refused = write(&mut shadow, 1_500, &[9, 8, 6], &base, 1);
    holds(
        &rt,
        refused == Some(Err(ShadowFault::NoSpace { needed: 2, free: 1 })),
    );
    holds(&rt, shape(&shadow) == [10, 0, 0, 0]);
    holds(
        &rt,
        write(&mut shadow, 1_500, &[9, 8, 6], &base, 2) == Some(Ok(())),
    );
    holds(&rt, shape(&shadow) == [1_503, 2, 0, 2]);
    holds(&rt, part(&shadow, 0, 8) == Some([7, 7, 0, 0]));
    holds(&rt, part(&shadow, 1, 475) == Some([0, 9, 8, 6]));
}

#[test]
fn what_a_cut_took_is_zeros_once_the_content_grows_again(rt: HostRuntime) {
    let base = ten_bytes(&rt, rt.alloc());
    let mut shadow = unchanged(&rt, rt.alloc());
    holds(
        &rt,
        write(&mut shadow, 1_022, &[9, 8, 6], &base, 2) == Some(Ok(())),
    );
    shadow.cut(1_023);
    holds(&rt, shadow.size() == 1_023);
    holds(
        &rt,
        [part(&shadow, 0, 1_020), part(&shadow, 1, 0)] == [Some([0, 0, 9, 0]), None],
    );
    shadow.cut(4);
    holds(
        &rt,
        write(&mut shadow, 6, &[1, 1, 1], &base, 0) == Some(Ok(())),
    );
    holds(&rt, part(&shadow, 0, 2) == Some([7, 7, 0, 0]));
    holds(&rt, part(&shadow, 0, 6) == Some([1, 1, 1, 0]));
}
