//! Requests and leases of exchanges, a line each. A block begins with `# `, the options of its pool in a URL, and what it
//! shows. Its first connection has the number 1000, and isn't reset where the options don't say so. Its requests have the
//! ages 0 to 3.
//!
//! `link NUMBER`: what the link of a number plays, as in `exchanges.rt`. `get MOMENT`: a request begins, and is polled;
//! `again AGE MOMENT`: it is polled once more. What these return: `lease NUMBER`, `pending` while it isn't done, `closed`,
//! `full WAITING LIMIT`, `dial` where its dial failed, and `failed` where its connect call did. `drop AGE`: a request is
//! given up. `give NUMBER`, `detach NUMBER`: a lease ends; a connection that was detached is let go. `no`: there is no such
//! request or lease in hand. `query NUMBER`: a leased connection asks for a set, of which nothing is read. The other words
//! are those of `exchanges.rt`; of the events `ttl`, `close` and `gone` alone.
//! `tapes = left 101 112`: the tapes of connections that are gone are handed out, that of 1000 with one call, and then that
//! of 1001 with two (`tapes.rt`).

pub const REQUESTS: &str = "\
# pool_min=1&pool_max=1 a lease that comes back is leased to the oldest request that waits, and one that is given up hands its wake on
link 1000 @greeting turn @login_ok
get 0 = lease 1000
get 0 = pending
get 0 = pending
again 1 0 = pending
rung = ages 0
give 1000 = done
give 1000 = no
rung = ages 0
turn 0 = left 0
rung = ages 1
place 1000 = idle 0 0 0 28800000
again 2 0 = pending
rung = ages 0
drop 1 = done
drop 1 = no
rung = ages 2
again 2 0 = lease 1000
live = number 0
rung = ages 0
metrics = counts 1 0 1 0 0 0 0 0 0 0 1 0
told = events 17
# pool_min=1&pool_max=1 a dial that fails frees its connection, and wakes a request
link 1000 dwait dfail
link 1001 dfail
get 0 = pending
place 1000 = connecting
get 0 = pending
again 0 0 = dial
rung = ages 1
metrics = counts 0 0 0 0 1
again 0 0 = no
again 1 0 = dial
metrics = counts 0 0 0 0 2
told = events 7
# pool_min=1&pool_max=1 a dial that isn't ready is made again; a connect call that isn't answered yet is polled again
link 1000 dwait @greeting turn wait @login_ok
get 0 = pending
request 0 = dials 0
again 0 0 = pending
place 1000 = connecting
again 0 0 = lease 1000
live = number 0
told = events 3
# pool_min=1&pool_max=1 a request that is given up while its connection is made frees it, and wakes the next one
link 1000 @greeting turn wait @login_ok
link 1001 @greeting turn @login_ok
get 0 = pending
get 0 = pending
drop 0 = done
place 1000 = none
rung = ages 1
again 1 0 = lease 1001
told = events 7
# pool_min=1&pool_max=1 an idle connection whose link has ended isn't leased: the same poll makes another
link 1000 @greeting turn @login_ok end
link 1001 @greeting turn @login_ok
get 0 = lease 1000
give 1000 = done
turn 0 = left 0
place 1000 = idle 0 0 0 28800000
get 0 = lease 1001
place 1000 = none
metrics = counts 1 0 1 0 1 0 0 0 0 0 1 0
told = events 13
# pool_min=1&pool_max=1 a woken request whose connection is dead frees it, which wakes the next one, and makes another
link 1000 @greeting turn @login_ok end
link 1001 @greeting turn @login_ok
get 0 = lease 1000
get 0 = pending
get 0 = pending
give 1000 = done
turn 0 = left 0
rung = ages 1
again 1 0 = lease 1001
rung = ages 2
request 2 = woken 1
place 1000 = none
place 1001 = leased
tapes = left 10 11
told = events 16
# pool_min=2&pool_max=2 of two idle connections the one that came last is looked at first, and the other where that is dead
link 1000 @greeting turn @login_ok
link 1001 @greeting turn @login_ok end
link 1002 dfail
get 0 = lease 1000
get 0 = lease 1001
give 1000 = done
give 1001 = done
turn 0 = left 0
get 0 = lease 1000
place 1001 = none
get 0 = dial
metrics = counts 1 0 1 0 2 0 0 0 0 0 2 0
# pool_min=1&pool_max=1 an idle connection with a byte that no call read isn't leased
link 1000 @greeting turn 070000020000000200000000
link 1001 @greeting turn @login_ok
get 0 = lease 1000
give 1000 = done
turn 0 = left 0
get 0 = lease 1001
place 1000 = none
# pool_min=1&pool_max=2 one lease goes to one request
link 1000 @greeting turn @login_ok
link 1001 @greeting turn @login_ok
get 0 = lease 1000
get 0 = lease 1001
give 1000 = done
turn 0 = left 0
get 0 = lease 1000
get 0 = pending
place 1000 = leased
place 1001 = leased
# pool_min=1&pool_max=1 a query that is open when a lease comes back is cancelled, which closes it: it is counted no more
link 1000 @greeting turn @login_ok turn wait @set
link 1001 @greeting turn @login_ok
get 0 = lease 1000
query 1000 = open
give 1000 = done
turn 0 = left 0
place 1000 = none
metrics = counts 0 0 0 0 0 1
get 0 = lease 1001
# pool_min=1&pool_max=1 a connection that is detached is counted no more, and a request makes the next one
link 1000 @greeting turn @login_ok
link 1001 @greeting turn @login_ok
get 0 = lease 1000
get 0 = pending
detach 1000 = done
detach 1000 = no
place 1000 = none
rung = ages 1
again 1 0 = lease 1001
# pool_min=1&pool_max=1&pool_max_waiting=1 where as many wait as may, a request fails; one that waited before waits again
link 1000 @greeting turn @login_ok
get 0 = lease 1000
get 0 = pending
get 0 = full 1 1
give 1000 = done
turn 0 = left 0
get 0 = lease 1000
again 1 0 = pending
# pool_min=1&pool_max=1&pool_max_waiting=0 no request may wait
link 1000 @greeting turn @login_ok
get 0 = lease 1000
get 0 = full 0 0
# pool_min=1&pool_max=1 in a closed pool each request fails, and the lease that comes back is closed
link 1000 @greeting turn @login_ok
get 0 = lease 1000
get 0 = pending
close = done
rung = ages 1
again 1 0 = closed
get 0 = closed
gone = there
give 1000 = done
turn 0 = left 0
gone = gone
metrics = counts 0 0 0 0 0 0 0 1 0 0 0 0
# pool_min=1&pool_max=1&conn_ttl=1 one whose time is over comes back, and isn't leased
link 1000 @greeting turn @login_ok
link 1001 @greeting turn @login_ok
get 0 = lease 1000
give 1000 = done
turn 0 = left 0
get 1001 = pending
place 1000 = returned 0
turn 1001 = left 0
rung = ages 1
again 1 1001 = lease 1001
# pool_min=1&pool_max=1 the tape of a connection that is gone is handed out once; while it is kept, it isn't
link 1000 @greeting turn @login_ok end
link 1001 @greeting turn @login_ok turn end
get 0 = lease 1000
tapes = left 1 1
give 1000 = done
turn 0 = left 0
tapes = left 1 1
get 0 = lease 1001
tapes = left 10 11
tapes = left 1 1
query 1001 = failed
give 1001 = done
tapes = left 1 1
turn 0 = left 0
tapes = left 11 12
# pool_min=2&pool_max=2 tapes are handed out in the order in which their connections went; one that was detached keeps its own
link 1000 @greeting turn wait @login_ok
link 1001 @greeting turn fail
link 1002 dfail
link 1003 @greeting turn @login_ok
get 0 = pending
get 0 = failed
drop 0 = done
get 0 = dial
get 0 = lease 1003
detach 1003 = done
tapes = left 110 110
# pool_min=2&pool_max=2 a turn polls each connection at work, and not the first alone
link 1000 @greeting turn @login_ok turn @set
link 1001 @greeting turn @login_ok turn @set
get 0 = lease 1000
get 0 = lease 1001
query 1000 = answered
query 1001 = answered
give 1000 = done
give 1001 = done
turn 0 = left 0
metrics = counts 2 2 0 0 0 0 2 0 0 0 2 0
";
