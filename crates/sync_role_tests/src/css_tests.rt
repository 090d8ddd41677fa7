// css_core: site 1 is the synchronization site of group 0, which the sites 1, 2 and 3 store.
use crate::group::Group;
use crate::script::plays;

const SCRIPT: &str = "
    # A group starts once all have reported. Before, an open waits, one of its process behind it does not, and a second report counts for
    # nothing.
    report 1 1.1 100 -> 1 reportok 0
    report 2 1.1 100 -> 2 reportok 0
    open 2 1 2 r ->
    open 2 2 2 r ->
    look 1 1 2 stat ->
    report 1 nothing -> 1 reportok 0
    ticks ->
    report 3 nothing -> 3 reportok 0; 3 notify from 1 0.2 1.1; 2 openss 2.1 r 0.2 1.1; 3 lookdone 1.1.1 stat 3 1.1; start e1.1.1 0 2=1.1; grant e1.1.1 c2.1.1 1 i2.1 r 0.2 1.1 2; look e1.1.1 c3.1.1 1 0.2 stat 1.1

    # A started group shows its files.
    report 1 1.1 100 -> 1 reportok 0
    report 2 1.1 100 -> 2 reportok 0
    report 3 nothing -> 3 reportok 0; 3 notify from 1 0.2 1.1; start e1.1.1 0 2=1.1
    shows started -> yes
    shows group -> 0
    shows files -> 1
    shows file 2 -> yes
    shows file 3 -> no
    shows kept 2 -> 1
    shows kept 3 -> 0

    # A writer excludes others until it has closed.
    report 1 1.1 100 -> 1 reportok 0
    report 2 1.1 100 -> 2 reportok 0
    report 3 nothing -> 3 reportok 0; 3 notify from 1 0.2 1.1; start e1.1.1 0 2=1.1
    open 2 1 2 w -> 2 openss 2.1 w 0.2 1.1; grant e1.1.1 c2.1.1 1 i2.1 w 0.2 1.1 2
    open 2 1 2 w -> 2 openss 2.1 w 0.2 1.1
    opened 2.1 2 3 -> 2 opendone 1 2 of 3 at 2 1.1
    open 2 1 2 w -> 2 opendone 1 2 of 3 at 2 1.1
    open 3 9 2 r -> 3 opendone 9 busy 2 1; refuse e1.1.1 c3.1.9 1 i3.9 r 0.2 busy 2 1
    closed 2 2.1 2.1 110 -> 1 notify from 2 0.2 2.1; 3 notify from 2 0.2 2.1; 2 closedok 2.1; release e1.1.1 i2.1 0.2 2.1
    closed 2 2.1 -> 2 closedok 2.1
    open 2 1 2 w ->

    # An instance is known by its name, and lagging members are notified until they have its version. A version that nobody knows, and
    # one below what is held, change nothing.
    report 1 1.1 100 -> 1 reportok 0
    report 2 1.1 100 -> 2 reportok 0
    report 3 nothing -> 3 reportok 0; 3 notify from 1 0.2 1.1; start e1.1.1 0 2=1.1
    open 2 1 2 w -> 2 openss 2.1 w 0.2 1.1; grant e1.1.1 c2.1.1 1 i2.1 w 0.2 1.1 2
    opened 2.1 2 3 -> 2 opendone 1 2 of 3 at 2 1.1
    shows has 2.1 -> yes
    shows opened 2.1 -> yes
    shows has 1.1 -> no
    shows opened 2.2 -> no
    shows open 2 -> yes
    shows open 1 -> no
    closed 2 2.1 2.1 110 -> 1 notify from 2 0.2 2.1; 3 notify from 2 0.2 2.1; 2 closedok 2.1; release e1.1.1 i2.1 0.2 2.1
    shows open 2 -> no
    ticks -> 1 notify from 2 0.2 2.1; 3 notify from 2 0.2 2.1
    have 3 2.1 ->
    ticks -> 1 notify from 2 0.2 2.1
    have 1 3.7 ->
    have 3 1.1 ->
    ticks -> 1 notify from 2 0.2 2.1
    notes 2.1 ->
    ticks ->

    # An instance that has made nothing is known no more once it is closed.
    report 1 1.1 100 -> 1 reportok 0
    report 2 1.1 100 -> 2 reportok 0
    report 3 nothing -> 3 reportok 0; 3 notify from 1 0.2 1.1; start e1.1.1 0 2=1.1
    open 2 1 2 w -> 2 openss 2.1 w 0.2 1.1; grant e1.1.1 c2.1.1 1 i2.1 w 0.2 1.1 2
    opened 2.1 2 3 -> 2 opendone 1 2 of 3 at 2 1.1
    closed 2 2.1 -> 2 closedok 2.1; release e1.1.1 i2.1 0.2 -
    shows open 2 -> no

    # A look is answered again where it repeats.
    report 1 1.1 100 -> 1 reportok 0
    report 2 1.1 100 -> 2 reportok 0
    report 3 nothing -> 3 reportok 0; 3 notify from 1 0.2 1.1; start e1.1.1 0 2=1.1
    look 2 1 2 stat -> 3 lookdone 2.1.1 stat 3 1.1; look e1.1.1 c3.1.2 1 0.2 stat 1.1
    look 2 1 2 stat -> 3 lookdone 2.1.1 stat 3 1.1
    look 2 2 2 list -> 1 lookss 3 0.2 1.1; look e1.1.1 c3.1.2 1 0.2 list 1.1
    look 1 9 2 stat ->
    look 3 1 9 stat -> 3 lookdone 3.1.1 nostorage; look e1.1.1 c3.1.3 1 0.9 stat nostorage
    look 4 1 2 whole 9.9 -> 3 lookdone 4.1.1 nostorage; look e1.1.1 c3.1.4 1 0.2 whole nostorage

    # Versions that meet are a conflict: an open of each mode, and a look.
    report 1 1.1 100 -> 1 reportok 0
    report 2 2.1 010 -> 2 reportok 0
    report 3 nothing -> 3 reportok 0; start e1.1.1 0 2=1.1 2=2.1
    shows kept 2 -> 2
    ticks ->
    open 3 1 2 r -> 3 opendone 1 conflict 1.1 2.1; refuse e1.1.1 c3.1.1 1 i3.1 r 0.2 conflict 1.1 2.1
    open 3 2 2 x 3 -> 3 opendone 2 nostorage; refuse e1.1.1 c3.1.2 1 i3.2 x 0.2 nostorage
    open 3 3 2 x 2 -> 2 openss 3.3 x 0.2 2.1; grant e1.1.1 c3.1.3 1 i3.3 x 0.2 2.1 2
    open 1 4 2 m -> 1 opendone 4 busy 3 1; refuse e1.1.1 c1.1.4 1 i1.4 m 0.2 busy 3 1
    look 1 1 2 stat -> 3 lookdone 1.1.1 conflict 1.1 2.1; look e1.1.1 c3.1.1 1 0.2 stat conflict 1.1 2.1

    # What is not there is refused or ignored: at last an answer to none of its opens, and one to an open that is refused.
    report 1 1.1 100 -> 1 reportok 0
    report 2 1.1 100 -> 2 reportok 0
    report 3 nothing -> 3 reportok 0; 3 notify from 1 0.2 1.1; start e1.1.1 0 2=1.1
    open 3 1 9 r -> 3 opendone 1 nostorage; refuse e1.1.1 c3.1.1 1 i3.1 r 0.9 nostorage
    open 3 2 2 x 2 -> 3 opendone 2 noconflict; refuse e1.1.1 c3.1.2 1 i3.2 x 0.2 noconflict
    open 3 3 9 m -> 3 opendone 3 nostorage; refuse e1.1.1 c3.1.3 1 i3.3 m 0.9 nostorage
    open 3 4 9 n 8 -> 3 opendone 4 nostorage; refuse e1.1.1 c3.1.4 1 i3.4 n 0.9 nostorage
    opened 3.7 2 3 ->
    opened 3.1 2 3 ->
    closed 3 3.1 ->

    # A site outside of the set is not notified: of a make of site 2, whose file sites 1 and 2 store.
    report 1 1.1 100 -> 1 reportok 0
    report 2 1.1 100 -> 2 reportok 0
    report 3 nothing -> 3 reportok 0; 3 notify from 1 0.2 1.1; start e1.1.1 0 2=1.1
    open 2 1 0 n 3 -> 2 openss 2.1 n 0.0 0.0
    opened 2.1 65 0 -> 2 opendone 1 65 of 0 at 2 0.0; grant e1.1.1 c2.1.1 1 i2.1 n 0.65 - 2
    closed 2 2.1 2.1 010 -> 1 notify from 2 0.65 2.1; 2 closedok 2.1; release e1.1.1 i2.1 0.65 2.1
    ticks -> 3 notify from 1 0.2 1.1; 1 notify from 2 0.65 2.1

    # A make is refused where no number is left.
    report 1 1.1 100 -> 1 reportok 0
    report 2 1.1 100 -> 2 reportok 0
    report 3 nothing -> 3 reportok 0; 3 notify from 1 0.2 1.1; start e1.1.1 0 2=1.1
    open 2 1 0 n 3 -> 2 openss 2.1 n 0.0 0.0
    opened 2.1 noinode -> 2 opendone 1 noinode; refuse e1.1.1 c2.1.1 1 i2.1 n 0.0 noinode
    open 2 1 0 n 3 -> 2 opendone 1 noinode
    closed 2 2.1 ->
";

#[test]
fn opens_are_granted_excluded_and_closed(rt: HostRuntime) {
    plays::<Group, HostRuntime>(&rt, rt.alloc(), SCRIPT);
}
