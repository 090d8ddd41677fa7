// path_walk, where group 1 stands on `usr`.
use crate::script::plays;
use crate::walking::Walking;

const SCRIPT: &str = "
    # A path has its components.
    path has / ->
    path has ->
    path has /a -> a,
    path has /a/b@2 -> a,b@2,
    path has /a/ -> a,,
    path has //a -> ,a,

    # A path begins with a slash and ends with a name.
    path is / -> yes
    path is /a -> yes
    path is /a@1024 -> yes
    path is /a/b -> yes
    path is -> no
    path is a -> no
    path is /a/ -> no
    path is //a -> no
    path is /.. -> no
    path is /a@0 -> no
    path is /a@1025 -> no

    # Names are plain.
    name is a -> yes
    name is a@2 -> no
    name is . -> no
    name is -> no
    name plain b@2 -> b
    name plain b -> b
    path ends /a/b@2 -> b@2
    path begins /a/b@2 -> a,
    path ends / ->
    path begins / ->

    # Only the root of group 0 has mounts.
    root -> 1.1
    first root -> yes
    first file -> no
    name mount usr -> 1
    name mount us -> none
    name stands usr -> yes
    name stands usr@1 -> no
    name mount-in-root usr -> 1
    name mount-in-group-1 usr -> none

    # A walk looks for one component after the other.
    path walk / -> 0.1 directory, left 0
    path walk /a/b -> a in 0.1
    hears entered 3 d ->
    path walk /a/b -> b in 0.3
    hears entered 5 f ->
    path walk /a/b -> 0.5 file, left 0
    path walk /a -> 0.3 directory, left 1

    # A mount is passed without a look. Below the root the name is none of a mount.
    path walk /usr -> 1.1 directory, left 0
    path walk /usr/a -> a in 1.1
    hears entered 5 f ->
    path walk /usr/a -> 1.5 file, left 0

    # There it is looked for.
    hears entered 3 d ->
    path walk /a/usr -> usr in 0.3

    # A walk ends where it is refused.
    hears entered 5 f ->
    path walk /a/b -> notdir a
    path walk /usr/a/b/c -> notdir a

    # So it ends at a refused look.
    hears nostorage ->
    path walk /a/b -> nostorage

    # An answer that is none leads astray.
    hears ended ->
    path walk /a/b -> strays
";

#[test]
fn paths_are_walked(rt: HostRuntime) {
    plays::<Walking, HostRuntime>(&rt, rt.alloc(), SCRIPT);
}
