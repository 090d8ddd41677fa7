// call_scripts, where group 1 stands on `usr`.
use crate::calling::Calling;
use crate::script::plays;

const SCRIPT: &str = "
    # A create makes the file and then its entry.
    begins walks create /a -> open 0.1
    opened 1 1 -> i1.1 0 probe a
    did ok -> make in 0
    opened 2 65 -> close 2
    ended -> i1.1 0 insert a 65 f
    did ok -> close 1
    ended -> ok 65
    answers -> 6
    creates -> yes

    # A refused create closes what it has open. At last the same up to the make, which is refused.
    begins walks create /usr/a -> open 1.1
    opened 1 1 -> i1.1 0 probe a
    exists 2 -> close 1
    ended -> exists 2
    takes back ->
    takes back ->
    did ok -> make in 1
    nostorage -> close 1
    ended -> nostorage

    # An answer that is taken back was not heard.
    begins walks create /a -> open 0.1
    ended -> never
    takes back ->
    asks -> open 0.1
    answers -> 0

    # A message is written before it is named.
    begins walks mail /a hi -> look 0.1
    entered 2 d -> open 0.2
    opened 1 2 -> i1.1 0 probe m1.1.2
    did ok -> make in 0
    opened 2 65 -> i1.2 0 write 0 6869
    did ok -> close 2
    ended -> i1.1 0 insert m1.1.2 65 f
    did ok -> close 1
    ended -> ok m1.1.2

    # A message that can't be written is closed before its box.
    begins walks mail /a hi -> look 0.1
    entered 2 d -> open 0.2
    opened 1 2 -> i1.1 0 probe m1.1.2
    did ok -> make in 0
    opened 2 65 -> i1.2 0 write 0 6869
    nospace -> close 2
    ended -> close 1
    ended -> nospace 1 0

    # An unlink removes a file alone.
    begins walks unlink /a -> open 0.1
    opened 1 1 -> i1.1 0 find a
    did found 2 f -> open 0.2
    opened 2 2 -> i1.1 0 remove a 2
    did ok -> close 1
    ended -> close 2
    ended -> ok
    begins walks unlink /a -> open 0.1
    opened 1 1 -> i1.1 0 find a
    did found 2 d -> close 1
    ended -> isdir

    # A list of the root shows the mounts.
    begins walks list / -> look 0.1
    showed a v -> ok a usr v

    # A stat asks the file itself.
    begins walks stat /a -> look 0.1
    entered 2 f -> look 0.2
    described f 3 1.2 -> ok f 0.2 3 1.2

    # An open gives the free descriptor.
    begins walks open /a r -> look 0.1
    entered 2 d -> isdir
    takes back ->
    entered 2 f -> open 0.2
    opened 1 2 -> ok 4

    # Calls on an instance ask once.
    begins uses commit -> i1.1 0 commit
    did ok -> ok
    begins uses cut 9 -> i1.1 0 cut 9
    did ok -> ok
    begins uses read 0 1 2 -> i1.1 0 read 1 2
    did ok -> ok
    begins uses abort -> i1.1 0 abort
    did ok -> ok
    begins uses close -> close 1
    ended 1.2 -> ok 1.2

    # A read goes on only with its own version. A read by a steady descriptor that epoch 1.1.1 held last: it keeps version 1.2.
    begins reopens read 0 1 2 -> open 0.2
    reading 2 2 -> i1.2 0 read 1 2
    did ok -> ok
    begins reopens read 0 1 2 -> open 0.2
    reading 2 3 -> close 2
    ended -> stale e1.1.1

    # Bad names and denied calls are replied to at once.
    begins walks create a -> badname
    begins walks create /a/ -> badname
    begins walks create /usr -> badname
    begins walks create / -> badname
    begins walks create /a@2 -> badname
    begins walks create -> badname
    begins walks rename /a usr -> badname
    begins denied close -> baddescriptor
";

#[test]
fn calls_ask_until_they_are_replied_to(rt: HostRuntime) {
    plays::<Calling, HostRuntime>(&rt, rt.alloc(), SCRIPT);
}
