//! Transcripts of connection 0.

/// A transcript is separated from the next by an empty line. Its lines are a step and its answer, as in a script
/// and its text; what each use of the link met: `hold`, `fault`, or how many bytes were taken; and the call of the
/// tape, what it sent, and what was taken for it. A line with `=` has what is found of the lines before it:
/// `right`, or the index of the wrong line; `open` where the tape has a handshake that isn't done; and `planned`
/// with the lines of the plan, where the whole run is judged.
pub const ROWS: &str = "\
# dials that fail, aren't ready, or give a link that doesn't answer

conn | error Io Dial | fault
ping 0 | refused NoSuchHandle
= right
= wrong 2 | open
fields 0 | ok
= wrong 2

conn | error Io Dial | fault
reset 0 | refused NoSuchHandle
= right
reset 0 | flag 0
= wrong 2

conn | pending | hold
poll 0 | pending | hold
= right
cancel 0 | ok
cancel 0 | refused NoSuchHandle
= right
poll 0 | pending | hold
= wrong 4

conn | pending | 0 hold
fields 0 | refused NoSuchHandle
poll 0 | pending | hold
= right | open
= wrong 0
poll 0 | ok | 0
= wrong 3 | open

next 3 | refused NoSuchHandle
= right
next 3 | none | 0
= wrong 1

# steps that move the world

advance 5 | ok
conn | pending | hold
random 7 | ok
poll 0 | pending | hold
= right
advance 5 | pending
= wrong 4

random 7 | ok | 0
= wrong 0

# no statement and no transaction is there

conn | pending | 0 hold
exec 0 0 | refused NoSuchHandle
closestmt 0 0 | refused NoSuchHandle
= right | open
closestmt 0 0 | ok
= wrong 3 | open

conn | pending | 0 hold
begin 0 | refused NoSuchHandle
commit 0 | refused NoSuchHandle
rollback 0 | refused NoSuchHandle
forget 0 | refused NoSuchHandle
= right | open
forget 0 | ok
= wrong 5 | open

# changes of user; one keeps what it doesn't name, as the one before left it

conn | conn 0 id=7 version=8.0.36 | 0 89 | connect | @response | @greeting
user 0 bob secret shop | ok | 11 | user 0 bob secret shop | @to_bob | @ok
= right
user 0 = = = | ok | 11 | user 0 = = = | @to_bob | @ok
user 0 rob = = | ok | 11 | user 0 rob = = | @to_rob | @ok
user 0 root - - | ok | 11 | user 0 root - - | @to_root | @ok
= right

user 0 bob secret shop | refused NoSuchHandle
= right

# the bytes name another user, the step names another, it leaves the password out, and what was changed is forgotten

conn | conn 0 id=7 version=8.0.36 | 0 89 | connect | @response | @greeting
user 0 bob secret shop | ok | 11 | user 0 bob secret shop | @to_rob | @ok
= wrong 1

conn | conn 0 id=7 version=8.0.36 | 0 89 | connect | @response | @greeting
user 0 rob secret shop | ok | 11 | user 0 bob secret shop | @to_bob | @ok
= wrong 1

conn | conn 0 id=7 version=8.0.36 | 0 89 | connect | @response | @greeting
user 0 bob = = | ok | 11 | user 0 bob secret shop | @to_bob | @ok
= wrong 1

conn | conn 0 id=7 version=8.0.36 | 0 89 | connect | @response | @greeting
user 0 bob secret shop | ok | 11 | user 0 bob secret shop | @to_bob | @ok
user 0 = = = | ok | 11 | user 0 = = = | @to_root | @ok
= wrong 2

# a closed connection refuses a call at once, which isn't polled

conn | conn 0 id=7 version=8.0.36 | 0 89 | connect | @response | @greeting
quit 0 | ok | 0 | quit | @quit
ping 0 | error Driver ConnectionClosed || ping
= right
ping 0 | error Driver ConnectionClosed | 0 | ping
= wrong 3

conn | conn 0 id=7 version=8.0.36 | 0 89 | connect | @response | @greeting
quit 0 | ok | 0 | quit | @quit
= right
ping 0 | pending | hold | ping
= wrong 2

# dials over plans: a link comes once no wait is left, and each hold is a wait

conn | pending | hold
poll 0 | pending | 0 hold
= right | open | planned dial 0 wait
= wrong 0 | open | planned
= wrong 0 | open | planned dial 1 wait
= wrong 1 | open | planned dial 0 wait, dial 0 wait

conn | pending | hold
poll 0 | pending | hold
= right || planned dial 0 wait, dial 0 wait
= wrong 1 || planned dial 0 wait
= wrong 1 || planned dial 0 wait, dial 0 fail

# a dial fails where that is planned, and a dial that is dropped leaves its plan

conn | error Io Dial | fault
= right
= right || planned dial 0 fail
= wrong 0 || planned
= wrong 0 || planned dial 0 wait, dial 0 fail

conn | pending | hold
cancel 0 | ok
= right || planned dial 0 wait, dial 0 fail
= wrong 0 || planned dial 0 fail

# without steps there is no connection, whatever is planned

= right
= wrong 0 | open
= right || planned
= right || planned dial 0 wait, dial 0 fail
= wrong 0 | open | planned";
