//! Rows over a network that leads nowhere, and a row as it is planned.

pub const NETWORK: &str = "\
# network: no plan in script
$ script|mysql://root@localhost?socket=%2Fnowhere%2Fat%2Fall
>@ turn
> conn
status 3
cause 1 turn 0
whole

# network: a dial that fails in script
$ script|mysql://root@localhost?socket=%2Fnowhere%2Fat%2Fall
> conn|ping 0
< 1 error Io Dial|2 refused NoSuchHandle|end
whole
unjudged

# network: no plan in live
$ live|mysql://root@localhost?socket=%2Fnowhere%2Fat%2Fall
>@ turn
> conn
status 3
cause 1 turn 0
whole

# network: a dial that fails in live
$ live|mysql://root@localhost?socket=%2Fnowhere%2Fat%2Fall
> conn|ping 0
< 1 error Io Dial|2 refused NoSuchHandle|end
whole
unjudged

# network: a row of a server that a thread plays
$ live|mysql://root@127.0.0.1:PORT?max_allowed_packet=4194304&wait_timeout=28800
> conn|query 0 SELECT 1|next 0|next 0|next 0
<@ a_row
whole
unjudged";
