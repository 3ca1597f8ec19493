//! Tapes of transactions that begin, are rolled back, given up and committed, and changes of them.

/// As in `TAPES`.
pub const TRANSACTIONS: &str = "\
# A transaction with a query; of what comes after it nothing depends on it.
login plain
connect | @response | @greeting | ready
begin plain | @start | @ok | ready
query DO 1 | @do_1 | @ok | ready
rollback | @rollback | @ok | ready
ping | @ping | @ok | ready
~ 1 | ending refused nested | 1
~ 1 | missing | accepted
~ 2 | swapped | accepted
~ 3 | missing | accepted
= from 1 refuted 107

# The queries of one, another one that is refused, and one that is given up, which a ping rolls back.
login plain
connect | @response | @greeting | ready
begin full | @level @read_only @start_snapshot | @ok @ok @ok | ready
begin full | - | - | refused nested
forget | - | - | ready
ping | @rollback @ping | @ok @ok | ready
ping | @ping | @ok | ready
# A byte of each query but the first, and the sequence ids of their OKs.
~ 1 | sent byte 70 | 1
~ 1 | sent byte 100 | 1
~ 1 | taken byte 14 | 1
~ 1 | taken byte 25 | 1
~ 1 | missing | 1
~ 2 | missing | accepted
~ 2 | swapped | 3
~ 3 | missing | 3
~ 3 | swapped | 3
~ 4 | missing | 4
= from 1 refuted 121

# A server that is too old for one that only reads, and may have another one.
login plain
connect | @response | @greeting_564 | ready
begin reading | - | - | refused old
begin plain | @start | @ok | ready
~ 1 | ending refused nested | 1
~ 1 | swapped | 2
= from 1 refuted 44

# One that isn't too old.
login plain
connect | @response | @greeting_565 | ready
begin reading | @read_only @start | @ok @ok | ready
~ 1 | ending refused old | 1
= from 1 refuted 26

# The rest of a set is read before the transaction is rolled back.
login plain
connect | @response | @greeting | ready
begin plain | @start | @ok | ready
query SELECT 1 | @select | @head | ready
forget | - | - | ready
quit | @rollback @quit | @row @end @ok | ready
forget | - | - | ready | closed
~ 3 | missing | 3
= from 3 refuted 61

# A server's error to that is the answer, and the next call tries again.
login plain
connect | @response | @greeting | ready
begin plain | @start | @ok | ready
forget | - | - | ready
ping | @rollback | @err | error 1064
ping | @rollback @ping | @ok @ok | ready
ping | @ping | @ok | ready
~ 3 | missing | accepted
~ 3 | swapped | 4
= from 3 refuted 80

# An error to a query of one: none has begun.
login plain
connect | @response | @greeting | ready
begin full | @level @read_only | @ok @err | error 1064
begin plain | @start | @ok | ready
rollback | @rollback | @ok | ready
~ 1 | taken byte 14 | 1
~ 1 | swapped | 2
= from 1 refuted 81

# Of a batch the first execution rolls it back.
login plain
connect | @response | @greeting | ready
prepare SELECT ? | @prepare | @prepared | stmt 1
begin plain | @start | @ok | ready
forget | - | - | ready
batch 1, 2 | @rollback @execute_1 @execute_2 | @ok @head @cell @end @ok | ready
ping | @ping | @ok | ready
~ 3 | missing | 3
~ 4 | missing | 4
= from 4 refuted 54

# A beginning that is cancelled before its OK closes the connection.
login plain
connect | @response | @greeting | ready
begin plain | @start | - | cancelled 1 | more | open, cancelled 1
next | - | - | refused closed | closed
~ 1 | ending open | 2
~ 1 | ending refused nested | 1
= from 1 refuted 39

# After a commit nothing is rolled back.
login plain
connect | @response | @greeting | ready
begin plain | @start | @ok | ready
query DO 1 | @do_1 | @ok | ready
commit | @commit | @ok | ready
ping | @ping | @ok | ready
~ 3 | ending refused nested | 3
~ 3 | missing | accepted
~ 3 | swapped | accepted
= from 3 refuted 53

# One that the server refuses, after which another one may begin.
login plain
connect | @response | @greeting | ready
begin plain | @start | @ok | ready
commit | @commit @rollback | @err @ok | error 1064
begin plain | @start | @ok | ready
~ 2 | missing | 2
~ 2 | sent byte 15 | 2
~ 2 | taken byte 17 | 2
= from 2 refuted 55

# One of which the server refuses to roll it back, too: the first error is the answer, and the next call tries again.
login plain
connect | @response | @greeting | ready
begin plain | @start | @ok | ready
commit | @commit @rollback | @err @err_1213 | error 1064
ping | @rollback @ping | @ok @ok | ready
ping | @ping | @ok | ready
~ 2 | ending error 1213 | 2
~ 2 | missing | 2
= from 2 refuted 81

# An error in the rest of a set: it isn't committed.
login plain
connect | @response | @greeting | ready
begin plain | @start | @ok | ready
query SELECT 1 | @select | @head | ready
commit | @rollback | @err_of_row @ok | error 1064
begin plain | @start | @ok | ready
~ 3 | missing | 3
= from 3 refuted 53

# A commit that is cancelled before the answer to its rollback closes the connection.
login plain
connect | @response | @greeting | ready
begin plain | @start | @ok | ready
commit | @commit @rollback | @err | cancelled 1 | more | open, cancelled 1, link 4, eof 4
next | - | - | refused closed | closed
~ 2 | ending open | 3
= from 2 refuted 36";
