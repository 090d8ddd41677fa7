// propagation: site 2 pulls versions of two pages.
use crate::pulling::Pulling;
use crate::script::plays;

const SCRIPT: &str = "
    # Pages are asked for one after the other.
    hears notify 2 1 1 0 -> 1 pull 0 0.2 1.1
    hears page 0 1 1024 -> 1 pull 1 0.2 1.1
    ticks -> 1 pull 1 0.2 1.1
    hears page 1 1 512 ->
    ticks ->
    takes -> 0.2 1536
    shows count -> 0

    # Another page than the missing one is ignored: the second one, a short one, a long one, and the first page of another version.
    hears page 0 1 1024 ->
    hears notify 2 1 1 0 -> 1 pull 0 0.2 1.1
    hears page 1 1 512 ->
    hears page 0 1 512 ->
    hears page 0 1 1025 ->
    hears page 0 2 1024 ->
    hears page 0 1 1024 -> 1 pull 1 0.2 1.1
    hears page 0 1 1024 ->

    # Only a version above the own one is pulled: at last the same again, one beside it, and one above it.
    has 2 ->
    hears notify 2 2 2 0 -> 1 have 0.2 1.2
    hears notify 2 1 1 0 ->
    hears notify 2 3 1 1 ->
    shows count -> 0
    hears notify 2 3 3 0 -> 1 want 0.2 1.3 over 1.2
    hears notify 2 3 3 0 ->
    hears notify 2 4 2 1 ->
    hears notify 2 5 4 0 -> 1 want 0.2 1.5 over 1.2
    shows count -> 1
    drops ->
    shows count -> 0

    # Only the pages of the delta are pulled over the own copy, and no delta counts of another version, past its end, not ascending, or without
    # the page that the copy doesn't have.
    has 2 ->
    hears delta 3 1 ->
    hears notify 2 3 3 0 -> 1 want 0.2 1.3 over 1.2
    hears page 1 3 512 ->
    ticks -> 1 want 0.2 1.3 over 1.2
    hears delta 4 1 ->
    hears delta 3 1 2 ->
    hears delta 3 1 0 ->
    hears delta 3 0 ->
    hears delta 3 1 -> 1 pull 1 0.2 1.3
    hears delta 3 0 1 ->
    ticks -> 1 pull 1 0.2 1.3
    hears page 0 3 1024 ->
    hears page 1 3 512 ->
    ticks ->
    takes -> 0.2 512 over 1.2

    # A pull over a copy that is gone begins anew.
    has 2 ->
    hears notify 2 4 4 0 -> 1 want 0.2 1.4 over 1.2
    has 3 ->
    hears notify 2 4 4 0 -> 1 want 0.2 1.4 over 1.3

    # A stale pull is dropped and the next one taken: each is ready, and that of inode 2 is stale.
    hears notify 4 1 1 0 -> 1 pull 0 0.4 1.1
    hears notify 2 1 1 0 -> 1 pull 0 0.2 1.1
    hears notify 3 1 1 0 -> 1 pull 0 0.3 1.1
    chooses -> 0.3 0
    shows count -> 1
    leaves ->
    shows count -> 0
";

#[test]
fn versions_are_pulled_page_by_page(rt: HostRuntime) {
    plays::<Pulling, HostRuntime>(&rt, rt.alloc(), SCRIPT);
}
