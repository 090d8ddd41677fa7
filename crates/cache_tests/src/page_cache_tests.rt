use crate::cached::plays;

const SCRIPT: &str = "
    # The page used the longest ago goes.
    full
    get other 0 -> 7 7 7 alike
    peek other 1 -> 7 7 7 alike
    put page 0 8
    peek other 0 -> 7 7 7 alike
    peek other 1 -> none
    peek other 2 -> 7 7 7 alike
    peek page 0 -> 8 8 8 alike

    # A page that is there takes no room.
    full
    put other 0 9
    peek other 0 -> 9 9 9 alike
    peek other 1 -> 7 7 7 alike
    put page 0 8
    peek other 0 -> 9 9 9 alike
    peek other 1 -> none

    # A part is kept and found.
    held page 2049 0 2049 -> none
    keep 2049 0 4000 2049
    held page 2049 0 2049 -> 2049 as kept
    held page 2049 1000 1049 -> 1049 as kept
    held page 2049 2048 9 -> 1 as kept
    peek page 2 -> 67 0 0

    # No part without bytes is found.
    keep 1024 0 1024 1024
    held page 1024 1024 1 -> none
    held page 1024 0 0 -> none
    held page 0 0 1 -> none

    # A page that came in part is not kept.
    keep 4096 512 1024 1024
    peek page 0 -> none
    peek page 1 -> none
    keep 4096 1024 1023 1023
    peek page 1 -> none
    keep 4096 3072 1024 1024
    peek page 3 -> 65 65 65 alike
    peek page 2 -> none

    # Another version is not found, nor another file.
    keep 1024 0 1024 1024
    held later 1024 0 1024 -> none
    held other 1024 0 1024 -> none

    # Found pages come to the front, also before a missing one.
    full
    held other 1048576 0 1025 -> 1025 of others
    held other 1048576 261120 1025 -> none
    put page 0 8
    put page 1 8
    peek other 0 -> 7 7 7 alike
    peek other 1 -> 7 7 7 alike
    peek other 2 -> none
    peek other 3 -> none
    peek other 255 -> 7 7 7 alike
";

#[test]
fn pages_are_kept_found_and_let_go(rt: HostRuntime) {
    plays(&rt, rt.alloc(), SCRIPT);
}
