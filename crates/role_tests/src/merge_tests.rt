// merge_protocol: site 1 forms an epoch of three sites.
use crate::forming::Forming;
use crate::script::plays;

const SCRIPT: &str = "
    # A merge polls all that are connected. Only the site that hasn't promised is polled again, and nothing is decided.
    merges -> 2 poll; 3 poll
    hears promise 2 7 ->
    ticks -> 3 poll
    shows decided -> none

    # A merge that is answered installs its epoch. A member that has joined isn't sent it again, and a report that is answered is done with.
    merges -> 2 poll; 3 poll
    hears promise 2 7 ->
    hears promise 3 7 ->
    shows decided -> 1.1.1 of all
    joins -> join 1 e1.1.1 1:1,2:1,3:1
    shows reports -> 0
    installs -> 2 install; 3 install
    hears joined 2 1.1.1 ->
    ticks -> 3 install
    hears reportok 0 ->
    shows reports ->

    # What is of another epoch changes nothing. Then a late promise, a refusal of a round that has ended, and a lower poll.
    merges -> 2 poll; 3 poll
    hears promise 2 7 ->
    hears promise 3 7 ->
    joins -> join 1 e1.1.1 1:1,2:1,3:1
    installs -> 2 install; 3 install
    hears joined 2 1.2.1 ->
    hears reportok 1 ->
    ticks -> 2 install; 3 install
    shows reports -> 0
    hears promise 2 3 ->
    shows decided -> none
    hears refuse 1.1.1 9.1.1 ->
    hears poll 3 0.3.1 -> 3 refuse 1
    shows in 1.1.1 -> yes

    # A site that is polled promises, joins and leaves.
    is 2 ->
    hears poll 1 1.1.1 -> 1 promise 111
    hears poll 1 1.1.1 -> 1 promise 111
    joins -> join 2 e1.1.1 1:1,2:1,3:1
    shows epoch -> 1.1.1 of all
    shows reports -> 0 1
    leaves -> leave 2 e1.1.1
    shows epoch -> none
    leaves ->

    # An install is taken once, by site 2, which has promised 1.1.1.
    is 2 ->
    hears poll 1 1.1.1 -> 1 promise 111
    shows install 1.3.1 1 -> nothing
    shows install 1.1.1 2 -> nothing
    shows install 1.1.1 1 -> joins
    joins -> join 2 e1.1.1 1:1,2:1,3:1
    shows install 1.1.1 1 -> again
    answers -> 1 joined

    # A part polls the members that are left. Outside of all epochs it does nothing.
    merges -> 2 poll; 3 poll
    hears promise 2 7 ->
    hears promise 3 7 ->
    parts ->
    joins -> join 1 e1.1.1 1:1,2:1,3:1
    links 0 ->
    parts -> 2 poll; leave 1 e1.1.1
    shows boot -> yes

    # A refused merge begins above the promised id.
    merges -> 2 poll; 3 poll
    hears refuse 1.1.1 7.3.1 -> 2 poll; 3 poll
    hears poll 3 7.3.1 -> 3 refuse 8
    hears refuse 8.1.1 4294967295.3.1 -> no number
";

#[test]
fn epochs_are_formed_and_left(rt: HostRuntime) {
    plays::<Forming, HostRuntime>(&rt, rt.alloc(), SCRIPT);
}
