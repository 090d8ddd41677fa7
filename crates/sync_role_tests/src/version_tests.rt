// css_versions and css_notices: which versions of a file are kept, who holds them, and who is notified.
use crate::knowing::Knowing;
use crate::script::plays;

const SCRIPT: &str = "
    # A file keeps what is below no other: at last one beside it, and one below both.
    report 1 2 1.1 100
    report 2 2 1.1 100
    publish 2 2 2 2.1 110
    file 2 versions -> 1.1 2.1
    file 2 kept -> 2.1
    report 3 2 3.1 101
    publish 1 2 2 1.1 100
    file 2 kept -> 2.1 3.1
    file 2 kept 3.1 -> yes
    file 2 kept 1.1 -> no
    file 2 joined -> 1 1 1
    shows joined -> 0 0 0
    file 2 stamps -> 2

    # What a site holds only rises.
    report 1 2 1.1 100
    report 2 2 1.1 100
    publish 2 2 2 2.1 110
    note 1 2 2.1
    note 1 2 1.1
    note 1 2 9.9
    file 2 holding 1 -> 2.1
    file 2 holding 3 -> none
    file 2 holders 2.1 -> 1 2
    file 2 size 2.1 -> 5
    file 2 size 9.9 -> none

    # A file is what was reported first.
    note 1 2 1.1
    shows known 2 -> no
    report 1 2 1.1 100
    publish 2 9 2 2.1 010
    publish 2 2 2 2.1 110
    note 1 2 2.1
    shows count -> 2
    file 2 number -> 2
    file 2 is a file -> yes
    file 2 set -> 7
    file 2 holding 1 -> 2.1

    # A holder is chosen near the using site.
    shows chosen 3 2 -> 3
    shows chosen 2 3 -> 2
    shows chosen 4 3 -> 3
    shows chosen 4 2 -> 2
    shows chosen 4 1 -> 2
    shows chosen 1 1 of none -> no
    shows among 3 -> yes
    shows among 1 -> no

    # Members of the set that lag are notified, but those outside of the set, and of a file of several kept versions nobody is.
    shows members 14 -> 2 3
    report 1 2 1.1 100
    report 2 2 1.1 100
    lagging 2 -> 3 notify from 1 0.2 1.1
    publish 3 2 7 3.1 001
    publish 1 5 3 1.1 100
    notify all -> 2 notify from 1 0.5 1.1
";

#[test]
fn versions_are_kept_held_and_told(rt: HostRuntime) {
    plays::<Knowing, HostRuntime>(&rt, rt.alloc(), SCRIPT);
}
