// using_site: site 1, and at it process 1. Its storage site is site 2.
use crate::script::plays;
use crate::using::Using;

const SCRIPT: &str = "
    # An open looks and takes a descriptor.
    calls open /a r -> 1 look 1.1.1 0.1; call 1 1 c1.1.1 open /a r
    shows busy 1 -> yes
    shows busy 2 -> no
    ticks -> 1 look 1.1.1 0.1
    hears looked 1 1 1 file -> 1 open 1 0.2
    hears opened 1 3 -> reply 1 1 c1.1.1 ok 0
    shows busy 1 -> no
    shows free -> 1
    shows reads 1 -> yes
    shows reads 2 -> none

    # A look that moved is asked again: the first take is late, once the second has been asked.
    calls open /a r -> 1 look 1.1.1 0.1; call 1 1 c1.1.1 open /a r
    hears looked 1 1 1 moved -> 1 look 1.1.2 0.1
    hears looked 1 1 1 file ->
    hears looked 1 1 2 file -> 1 open 1 0.2

    # An operation is answered by its own outcome.
    calls open /a r -> 1 look 1.1.1 0.1; call 1 1 c1.1.1 open /a r
    hears looked 1 1 1 file -> 1 open 1 0.2
    hears opened 1 3 -> reply 1 1 c1.1.1 ok 0
    calls read 0 0 3 -> 2 op 1 1; call 1 1 c1.1.2 read 0 0 3
    hears did 1 1 data abc -> reply 1 1 c1.1.2 ok 616263
    calls close -> 2 close 1; call 1 1 c1.1.3 close 0
    shows free -> 0
    hears closed 1 2.2 -> reply 1 1 c1.1.3 ok 2.2

    # A read of pages in memory brings no bytes.
    calls open /a r -> 1 look 1.1.1 0.1; call 1 1 c1.1.1 open /a r
    hears looked 1 1 1 file -> 1 open 1 0.2
    hears opened 1 10 -> reply 1 1 c1.1.1 ok 0
    calls read 0 0 10 -> 2 op 1 1; call 1 1 c1.1.2 read 0 0 10
    hears did 1 1 data 0123456789 -> reply 1 1 c1.1.2 ok 30313233343536373839
    shows page -> 0123456789yes
    calls read 0 0 10 -> 2 readheld 1 2 0 10; call 1 1 c1.1.3 read 0 0 10
    ticks -> 2 readheld 1 2 0 10
    hears held 1 1 ->
    hears held 1 2 -> reply 1 1 c1.1.3 ok 30313233343536373839

    # An answer without bytes is for a read that has them in memory.
    calls open /a r -> 1 look 1.1.1 0.1; call 1 1 c1.1.1 open /a r
    hears looked 1 1 1 file -> 1 open 1 0.2
    hears opened 1 3 -> reply 1 1 c1.1.1 ok 0
    calls read 0 0 3 -> 2 op 1 1; call 1 1 c1.1.2 read 0 0 3
    hears held 1 1 ->
    shows busy 1 -> yes

    # Other answers than that of the read that process 1 waits for are ignored.
    calls open /a r -> 1 look 1.1.1 0.1; call 1 1 c1.1.1 open /a r
    hears looked 1 1 1 file -> 1 open 1 0.2
    hears opened 1 3 -> reply 1 1 c1.1.1 ok 0
    calls read 0 0 3 -> 2 op 1 1; call 1 1 c1.1.2 read 0 0 3
    hears did 1 1 ok ->
    hears did 1 2 nospace ->
    hears did 2 1 nospace ->
    hears looked 1 1 1 file ->
    hears looked 2 1 1 file ->
    hears opened 1 3 ->
    hears closed 1 ->
    shows busy 1 -> yes
    hears did 1 1 nospace -> reply 1 1 c1.1.2 nospace 1 0

    # What may not be is answered at once.
    calls open /a r -> 1 look 1.1.1 0.1; call 1 1 c1.1.1 open /a r
    hears looked 1 1 1 file -> 1 open 1 0.2
    hears opened 1 3 -> reply 1 1 c1.1.1 ok 0
    calls read 5 0 3 -> call 1 1 c1.1.2 read 5 0 3; reply 1 1 c1.1.2 baddescriptor
    calls write x -> call 1 1 c1.1.3 write 0 0 78; reply 1 1 c1.1.3 readonly
    calls open a r -> call 1 1 c1.1.4 open a r; reply 1 1 c1.1.4 badname
    calls open /usr w -> call 1 1 c1.1.5 open /usr w; reply 1 1 c1.1.5 isdir

    # A refused open takes no descriptor.
    calls open /a w -> 1 look 1.1.1 0.1; call 1 1 c1.1.1 open /a w
    hears looked 1 1 1 file -> 1 open 1 0.2
    hears opened 1 no busy 3 2 -> reply 1 1 c1.1.1 busy 3 2
    shows free -> 0

    # A descriptor is stale in the next epoch.
    calls open /a r -> 1 look 1.1.1 0.1; call 1 1 c1.1.1 open /a r
    hears looked 1 1 1 file -> 1 open 1 0.2
    hears opened 1 3 -> reply 1 1 c1.1.1 ok 0
    calls read 0 0 3 -> 2 op 1 1; call 1 1 c1.1.2 read 0 0 3
    leaves -> reply 1 1 c1.1.2 changed e1.1.1
    shows busy 1 -> no
    joins 2.1.1 ->
    calls read 0 0 3 -> call 1 1 c1.1.3 read 0 0 3; reply 1 1 c1.1.3 stale e1.1.1

    # A steady descriptor reads on in the next epoch.
    calls open /a s -> 1 look 1.1.1 0.1; call 1 1 c1.1.1 open /a s
    hears looked 1 1 1 file -> 1 open 1 0.2
    hears opened 1 3 -> reply 1 1 c1.1.1 ok 0
    leaves ->
    joins 2.1.1 ->
    calls read 0 0 3 -> 1 open 2 0.2; call 1 1 c1.1.2 read 0 0 3
    hears opened 2 3 -> 2 op 2 1
    hears did 2 1 data abc -> reply 1 1 c1.1.2 ok 616263
    calls read 0 0 3 -> 2 readheld 2 2 0 3; call 1 1 c1.1.3 read 0 0 3
    leaves -> reply 1 1 c1.1.3 changed e2.1.1
    joins 3.1.1 ->
    calls close -> call 1 1 c1.1.4 close 0; reply 1 1 c1.1.4 ok

    # Outside of all epochs a call is refused.
    outside ->
    calls stat /a -> call 1 1 c1.1.1 stat /a; reply 1 1 c1.1.1 nopartition

    # A mend brings each kept version.
    mends -> 1 open 1 0.1; call 1 0 c1.1.1 mend 0.1
    shows mend -> yes
    shows mend in 0 -> yes
    shows mend in 1 -> no
    shows mend by 1 -> 0.1
    shows mend by 2 -> none
    hears opened 1 3 1.1 2.1 -> 1 look 1.2.1 0.1
    hears looked 1 2 1 empty -> 1 look 1.3.1 0.1
    hears looked 1 3 1 empty -> 2 op 1 1
    shows brought -> 2

    # A mend without room is hopeless.
    mends -> 1 open 1 0.1; call 1 0 c1.1.1 mend 0.1
    hears opened 1 3 1.1 2.1 -> 1 look 1.2.1 0.1
    hears looked 1 2 1 empty -> 1 look 1.3.1 0.1
    hears looked 1 3 1 empty -> 2 op 1 1
    hears did 1 1 toolong -> 2 close 1
    hears closed 1 -> reply 1 0 c1.1.1 toolong
    shows mend -> no
    shows hopeless -> yes
";

#[test]
fn calls_are_asked_and_answered(rt: HostRuntime) {
    plays::<Using, HostRuntime>(&rt, rt.alloc(), SCRIPT);
}
