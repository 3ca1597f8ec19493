//! Events of exchanges, a line each. A block begins with `# `, the options of its pool in a URL, and what it shows. Its first
//! connection has the number 1000, and isn't reset where the options don't say so.
//!
//! `link NUMBER`: what the link of a number plays, by names of payloads (`@greeting`, `@login_ok`, `@ok`, `@set`) or in
//! hexadecimal digits; `turn`: what follows can be read once a write took a byte; `wait`, `fail`, `end`: what a read meets;
//! `dwait`, `dfail`: what a dial meets. `ask`, `poll AGE MOMENT`, `cancel AGE`, `ready AGE NUMBER`, `failed AGE NUMBER`,
//! `give NUMBER`, `detach NUMBER`, `ttl MOMENT`, `close` and `gone` are events, with what they return after `=`; `no`: it may
//! not happen. A poll that dials makes its connection at once. `next MOMENT`: the next connection that came back is decided on.
//! `turn MOMENT = left 1`: a turn, after which one connection is at work. `query NUMBER`: a connection in hand asks for a set,
//! of which nothing is read. `rung = ages 12`: the wakers of the ages 1 and 2 were called, in this order, and no other since it
//! was asked last. `told = events 5`: the journal tells five events, and they lead to this pool. `request AGE`, `place NUMBER`,
//! `oldest`, `live`, `working` and `metrics` look. `view = shows 1 2 0 1 1000`: one connection is counted, two requests wait,
//! none was woken, the pool is closed, and the connection that came to its place last has the number 1000.
//! `tapes = left 101 112`: the tapes of connections that are gone are handed out (`tapes.rt`).

pub const EXCHANGES: &str = "\
# pool_min=1&pool_max=1 a woken request that is given up wakes the next one; each waker is called once, in the event that wakes its request
link 1000 @greeting turn @login_ok
ask = age 0
poll 0 0 = dial 1000
ready 0 1000 = done
ask = age 1
poll 1 0 = wait
ask = age 2
poll 2 0 = wait
poll 2 0 = wait
rung = ages 0
give 1000 = done
rung = ages 0
next 0 = keep 1000
rung = ages 1
request 1 = woken 1
request 2 = waits 1
next 0 = none
rung = ages 0
cancel 1 = done
rung = ages 2
oldest = none
poll 2 0 = take 1000
ready 2 1000 = done
rung = ages 0
live = number 0
metrics = counts 1 0 1 0 0 0 0 0 0 0 1 0
told = events 15
# pool_min=1&pool_max=1 a request that is given up while it looks at its connection frees it, and wakes the next one
link 1000 @greeting turn @login_ok
ask = age 0
poll 0 0 = dial 1000
ready 0 1000 = done
give 1000 = done
next 0 = keep 1000
ask = age 1
poll 1 0 = take 1000
ready 1 1001 = no
ask = age 2
poll 2 0 = wait
ready 2 1000 = no
cancel 1 = done
rung = ages 2
place 1000 = none
ready 1 1000 = no
metrics = counts 0
told = events 11
# pool_min=1&pool_max=1 a request whose own waker is there is not called when it is given up
link 1000 @greeting turn @login_ok
ask = age 0
poll 0 0 = dial 1000
ask = age 1
poll 1 0 = wait
cancel 1 = done
cancel 1 = no
rung = ages 0
failed 0 1000 = done
rung = ages 0
metrics = counts 0 0 0 0 1
# pool_min=1&pool_max=2 each connection that can't be made, and each that is detached, wakes the oldest request alone
link 1000 @greeting turn @login_ok
ask = age 0
poll 0 0 = dial 1000
ask = age 1
poll 1 0 = dial 1001
ask = age 2
poll 2 0 = wait
ask = age 3
poll 3 0 = wait
ready 0 1000 = done
rung = ages 0
failed 1 1001 = done
rung = ages 2
failed 1 1001 = no
detach 1000 = done
rung = ages 3
detach 1000 = no
metrics = counts 0 0 0 0 1
poll 3 0 = dial 1002
poll 2 0 = dial 1003
told = events 13
# pool_min=1&pool_max=1 a connection that comes back with a set unread is to be cleaned, and isn't idle
link 1000 @greeting turn @login_ok turn @set
ask = age 0
poll 0 0 = dial 1000
ready 0 1000 = done
query 1000 = answered
give 1000 = done
next 0 = clean 1000
next 0 = none
ask = age 1
poll 1 0 = wait
rung = ages 0
metrics = counts 1 0 0 1 0 0 1 0 0 0 0 0
# pool_min=1&pool_max=1 one whose link has ended is counted no more
link 1000 @greeting turn @login_ok turn end
ask = age 0
poll 0 0 = dial 1000
ready 0 1000 = done
query 1000 = failed
give 1000 = done
ask = age 1
poll 1 0 = wait
next 0 = drop 1000
rung = ages 1
metrics = counts 0 0 0 0 0 1
# pool_min=1&pool_max=1 one lease goes to one request, and one that was given back is leased no more
link 1000 @greeting turn @login_ok
ask = age 0
poll 0 0 = dial 1000
poll 0 0 = no
ready 0 1000 = done
ready 0 1000 = no
give 1000 = done
give 1000 = no
detach 1000 = no
# pool_min=1&pool_max=1&conn_ttl=1 one whose time is over comes back when it is looked for, and is closed
link 1000 @greeting turn @login_ok
ask = age 0
poll 0 0 = dial 1000
ready 0 1000 = done
give 1000 = done
next 0 = keep 1000
place 1000 = idle 0 0 0 1000
ask = age 1
poll 1 1000 = take 1000
ready 1 1000 = done
give 1000 = done
next 1000 = keep 1000
ask = age 2
poll 2 1001 = wait
place 1000 = returned 0
next 1001 = close 1000
rung = ages 0
metrics = counts 1 0 0 1 0 0 0 1 0 0 2 0
# pool_min=1&pool_max=3&inactive_connection_ttl=1 of those above the least number each that is idle for too long is marked, and closed
link 1000 @greeting turn @login_ok
link 1001 @greeting turn @login_ok
ask = age 0
poll 0 0 = dial 1000
ready 0 1000 = done
ask = age 1
poll 1 0 = dial 1001
ready 1 1001 = done
give 1000 = done
give 1001 = done
next 5 = keep 1000
next 5 = keep 1001
ttl 5 = none
ttl 1006 = moved 1
place 1000 = returned 1
next 1006 = close 1000
next 1006 = none
told = events 17
# pool_min=1&pool_max=1 closing the pool wakes all that wait, in the order in which they waited; a new request is refused
link 1000 @greeting turn @login_ok
ask = age 0
poll 0 0 = dial 1000
ready 0 1000 = done
ask = age 1
ask = age 2
poll 2 0 = wait
poll 1 0 = wait
view = shows 1 2 0 0 1000
close = done
rung = ages 21
view = shows 1 0 2 1 1000
close = done
rung = ages 0
poll 1 0 = closed
poll 2 0 = closed
ask = age 3
poll 3 0 = closed
gone = there
give 1000 = done
next 0 = close 1000
gone = there
told = events 18
# pool_min=1&pool_max=1&reset_connection=true one that is to be reset isn't idle yet
link 1000 @greeting turn @login_ok
ask = age 0
poll 0 0 = dial 1000
ready 0 1000 = done
give 1000 = done
next 0 = reset 1000
metrics = counts 1 0 0 0 0 0 0 0 1
# pool_min=0&pool_max=2 where enough are idle, one that comes back is closed, and isn't idle
link 1000 @greeting turn @login_ok
ask = age 0
poll 0 0 = dial 1000
ready 0 1000 = done
give 1000 = done
next 0 = close 1000
next 0 = none
metrics = counts 1 0 0 0 0 0 0 0 0 1
ask = age 1
poll 1 0 = dial 1001
# pool_min=1&pool_max=1 a turn reads what is left of a set, and the connection is idle then
link 1000 @greeting turn @login_ok turn @set
ask = age 0
poll 0 0 = dial 1000
ready 0 1000 = done
query 1000 = answered
give 1000 = done
ask = age 1
poll 1 0 = wait
turn 0 = left 0
rung = ages 1
view = shows 1 0 1 0 1000
metrics = counts 1 1 0 0 0 0 1 0 0 0 1 0
poll 1 0 = take 1000
told = events 12
# pool_min=2&pool_max=2 one turn decides on each that came back
link 1000 @greeting turn @login_ok
link 1001 @greeting turn @login_ok
ask = age 0
poll 0 0 = dial 1000
ready 0 1000 = done
ask = age 1
poll 1 0 = dial 1001
ready 1 1001 = done
give 1001 = done
give 1000 = done
turn 0 = left 0
metrics = counts 2 2 0 0 0 0 0 0 0 0 2 0
# pool_min=1&pool_max=1&reset_connection=true a reset that isn't answered yet is at work; the next turn goes on with it
link 1000 @greeting turn @login_ok turn wait @ok
ask = age 0
poll 0 0 = dial 1000
ready 0 1000 = done
give 1000 = done
turn 0 = left 1
working = number 1
metrics = counts 1 0 0 0 0 0 0 0 1
turn 0 = left 0
metrics = counts 1 1 0 0 0 0 0 0 1 0 1 0
# pool_min=1&pool_max=1&reset_connection=true a reset that fails frees its connection, and wakes a request
link 1000 @greeting turn @login_ok turn end
ask = age 0
poll 0 0 = dial 1000
ready 0 1000 = done
give 1000 = done
ask = age 1
poll 1 0 = wait
turn 0 = left 0
rung = ages 1
metrics = counts 0 0 0 0 0 0 0 0 1 0 0 1
# pool_min=1&pool_max=1 a closed pool closes its idle connections, and is gone once a turn has seen that none is left
link 1000 @greeting turn @login_ok
ask = age 0
poll 0 0 = dial 1000
ready 0 1000 = done
give 1000 = done
turn 0 = left 0
close = done
view = shows 1 0 0 1 1000
gone = there
turn 0 = left 0
view = shows 0 0 0 1 0
gone = gone
metrics = counts 0 0 0 0 0 0 0 1 0 0 1 0
# pool_min=5&pool_max=10 of ten connections that come back five stay, and each other one is closed by a turn: its tape is left
link 1000 @greeting turn @login_ok
link 1001 @greeting turn @login_ok
link 1002 @greeting turn @login_ok
link 1003 @greeting turn @login_ok
link 1004 @greeting turn @login_ok
link 1005 @greeting turn @login_ok
link 1006 @greeting turn @login_ok
link 1007 @greeting turn @login_ok
link 1008 @greeting turn @login_ok
link 1009 @greeting turn @login_ok
ask = age 0
poll 0 0 = dial 1000
ready 0 1000 = done
ask = age 1
poll 1 0 = dial 1001
ready 1 1001 = done
ask = age 2
poll 2 0 = dial 1002
ready 2 1002 = done
ask = age 3
poll 3 0 = dial 1003
ready 3 1003 = done
ask = age 4
poll 4 0 = dial 1004
ready 4 1004 = done
ask = age 5
poll 5 0 = dial 1005
ready 5 1005 = done
ask = age 6
poll 6 0 = dial 1006
ready 6 1006 = done
ask = age 7
poll 7 0 = dial 1007
ready 7 1007 = done
ask = age 8
poll 8 0 = dial 1008
ready 8 1008 = done
ask = age 9
poll 9 0 = dial 1009
ready 9 1009 = done
give 1000 = done
turn 0 = left 0
metrics = counts 10
give 1001 = done
turn 0 = left 0
metrics = counts 10
give 1002 = done
turn 0 = left 0
metrics = counts 10
give 1003 = done
turn 0 = left 0
metrics = counts 10
give 1004 = done
turn 0 = left 0
metrics = counts 10
give 1005 = done
turn 0 = left 0
metrics = counts 9
give 1006 = done
turn 0 = left 0
metrics = counts 8
give 1007 = done
turn 0 = left 0
metrics = counts 7
give 1008 = done
turn 0 = left 0
metrics = counts 6
give 1009 = done
turn 0 = left 0
metrics = counts 5
tapes = left 156789 122222
tapes = left 1 1
place 1004 = idle 0 0 0 28800000
place 1005 = none
";
