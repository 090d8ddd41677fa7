ghost use Rattle.std.specs.Prelude.{◌≡◌, ℕ, ◌+◌, ◌*◌, ◌≤◌, ◌<◌, ◌↔◌, min, IsTrue, length, nat_lt, ◌-◌, ◌^◌};
ghost use Rattle.locus_ids.specs.Sizes.{page_bytes};
ghost use Rattle.file_content.specs.Pages.{pages_of};
ghost use Rattle.shadow_pages.specs.Working.{meets};

use locus_ids::sizes::PAGE_BYTES;

/// The number of pages that some bytes fill.
pub fn pages_of(size: u32) -> u32
    requires { size < 2 ^ 32 - (page_bytes - 1) }
    ensures { result ≡ pages_of size }
{
    (size + (PAGE_BYTES as u32 - 1)) / PAGE_BYTES as u32
}

/// Pages in a row: those from `first` up to `stop`.
#[derive(Clone, Copy)]
pub struct Span {
    pub first: u32,
    pub stop: u32,
}

/// The pages that meet the bytes from one place up to another.
pub fn span_between(from: u32, to: u32) -> Span
    requires { to ≤ 1110016 }
    ensures meets { (i : ℕ) → IsTrue (meets from to i) ↔ ((result.first ≤ i) × (i < result.stop)) }
    ensures ordered { result.first ≤ result.stop }
    ensures most { result.stop ≤ pages_of to }
    ensures within { result.stop ≤ 1084 }
{
    if from < to {
        Span {
            first: from / PAGE_BYTES as u32,
            stop: pages_of(to),
        }
    } else {
        Span { first: 0, stop: 0 }
    }
}

/// The shortest row that has the pages of two rows.
pub fn joined(a: Span, b: Span) -> Span
    ensures first { (i : ℕ) → a.first ≤ i → i < a.stop → (result.first ≤ i) × (i < result.stop) }
    ensures second { (i : ℕ) → b.first ≤ i → i < b.stop → (result.first ≤ i) × (i < result.stop) }
{
    if a.first >= a.stop {
        return b;
    }
    if b.first >= b.stop {
        return a;
    }
    Span {
        first: a.first.min(b.first),
        stop: a.stop.max(b.stop),
    }
}
