// Which pages of a content are marked as new.
ghost use Rattle.std.specs.Prelude.{◌≡◌, ◌≤◌, length, IfSome, IfNone};
ghost use Rattle.locus_ids.specs.Sizes.{content_pages_max};
ghost use Rattle.stored_versions.specs.Changes.{ArePages};
ghost use Rattle.page_marks.specs.Marking.{AreMarks};

use locus_ids::sizes::CONTENT_PAGES;

/// The marks of the changed pages, or `None` exactly where a number is none of a page or stands twice.
pub fn marks_of(changed: &[usize], count: usize) -> Option<[bool; CONTENT_PAGES]>
    requires { count ≤ content_pages_max }
    ensures some { IfSome result (λ marks. AreMarks count changed.now marks) }
    ensures none { IfNone result (ArePages count changed.now → ⊥) }
{
    let mut marks = [false; CONTENT_PAGES];
    for i in 0..changed.len() {
        let page = changed[i];
        if page >= count {
            return None;
        }
        if marks[page] {
            return None;
        }
        marks[page] = true;
    }
    Some(marks)
}
