//! Tapes of resets, of changes of user, and of connections that a pool cleans and renews, and changes of them.

/// As in `TAPES`.
pub const RENEWALS: &str = "\
# After a reset the statement that was cached is prepared anew.
login plain
connect | @response | @greeting | ready
prepare SELECT ? | @prepare | @prepared | stmt 1
reset | @reset | @ok | flag 1
prepare SELECT ? | @prepare | @prepared | stmt 1
ping | @ping | @ok | ready
~ 1 | missing | accepted
~ 2 | missing | 2
~ 2 | swapped | 2
= from 2 refuted 82

# The queries that set a connection up follow, from the last to the first.
login twice
connect | @response @do_2 @do_1 | @greeting @ok @ok | ready
reset | @reset @do_2 @do_1 | @ok @ok @ok | flag 1
ping | @ping | @ok | ready
# The command, a byte of each query, and the sequence ids of their OKs.
~ 1 | sent byte 4 | 1
~ 1 | sent byte 13 | 1
~ 1 | sent byte 22 | 1
~ 1 | taken byte 14 | 1
~ 1 | taken byte 25 | 1
# Warnings are no part of an answer.
~ 1 | taken byte 10 | accepted
~ 1 | missing | accepted
= from 1 refuted 57

# A server that can't is sent nothing: a query's row is there still, and the statement is cached.
login plain
connect | @response | @greeting_572 | ready
prepare SELECT ? | @prepare | @prepared | stmt 1
query SELECT 1 | @select | @head | ready
reset | - | - | flag 0
next | - | @row | row 1
prepare SELECT ? | - | - | stmt 1
~ 3 | missing | accepted
~ 3 | swapped | accepted
= from 3 refuted 53

# The server's error leaves the statement cached.
login plain
connect | @response | @greeting | ready
prepare SELECT ? | @prepare | @prepared | stmt 1
reset | @reset | @err | error 1064
prepare SELECT ? | - | - | stmt 1
ping | @ping | @ok | ready
= from 2 refuted 69

# An error of a query that follows comes after the statement was forgotten.
login twice
connect | @response @do_2 @do_1 | @greeting @ok @ok | ready
prepare SELECT ? | @prepare | @prepared | stmt 1
reset | @reset @do_2 | @ok @err | error 1064
prepare SELECT ? | @prepare | @prepared | stmt 1
ping | @ping | @ok | ready
~ 2 | taken byte 14 | 2
= from 2 refuted 81

# A reset that is cancelled before its answer closes the connection.
login plain
connect | @response | @greeting | ready
reset | @reset | - | cancelled 1 | more | open, cancelled 1
next | - | - | refused closed | closed
~ 1 | ending open | 2
~ 1 | ending eof 2 | accepted
= from 1 refuted 38

# After a change of user the statement that was cached is prepared anew.
login plain
connect | @response | @greeting | ready
prepare SELECT ? | @prepare | @prepared | stmt 1
user bob | @to_bob_bare | @ok | ready
prepare SELECT ? | @prepare | @prepared | stmt 1
ping | @ping | @ok | ready
# A letter of the name.
~ 2 | sent byte 6 | 2
~ 1 | missing | accepted
~ 2 | missing | 2
~ 2 | swapped | 2
= from 2 refuted 83

# The queries that set a connection up follow, from the last to the first.
login twice
connect | @response @do_2 @do_1 | @greeting @ok @ok | ready
user bob | @to_bob_bare @do_2 @do_1 | @ok @ok @ok | ready
ping | @ping | @ok | ready
# A byte of each query, the sequence ids of their OKs, and that of the first one.
~ 1 | sent byte 43 | 1
~ 1 | sent byte 52 | 1
~ 1 | taken byte 14 | 1
~ 1 | taken byte 25 | 1
~ 1 | taken byte 1 | 1
# Warnings are no part of an answer.
~ 1 | taken byte 10 | accepted
~ 1 | missing | accepted
= from 1 refuted 57

# A user with a password, which stays.
login secret
connect | @response_pw | @greeting | ready
user bob | @to_bob_pw | @ok | ready
ping | @ping | @ok | ready
# The length of the answer to the nonce, and a byte of it.
~ 1 | sent byte 9 | 1
~ 1 | sent byte 20 | 1
~ 1 | missing | accepted
= from 1 refuted 54

# The server's error leaves the connection open and the statement cached.
login plain
connect | @response | @greeting | ready
prepare SELECT ? | @prepare | @prepared | stmt 1
user bob | @to_bob_bare | @err | error 1064
prepare SELECT ? | - | - | stmt 1
ping | @ping | @ok | ready
~ 2 | missing | accepted
~ 2 | swapped | accepted
= from 2 refuted 69

# A change that is cancelled before its answer closes the connection.
login plain
connect | @response | @greeting | ready
user bob | @to_bob_bare | - | cancelled 1 | more | open, cancelled 1
next | - | - | refused closed | closed
~ 1 | ending open | 2
~ 1 | ending eof 2 | accepted
= from 1 refuted 38

# The rest of a set is read, and nothing is left then.
login plain
connect | @response | @greeting | ready
query SELECT 1 | @select | @head | ready
clean | - | @row @end | ready
ping | @ping | @ok | ready
next | - | - | none
~ 2 | missing | 2
# A cell that is read for nobody, and a ping's row.
~ 2 | taken byte 5 | accepted
~ 3 | swapped | accepted
= from 2 refuted 64

# An ERR in it is dropped.
login plain
connect | @response | @greeting | ready
query SELECT 1 | @select | @head | ready
clean | - | @err_of_row | ready
ping | @ping | @ok | ready
~ 2 | missing | 2
# Its code.
~ 2 | taken byte 5 | accepted
= from 2 refuted 46

# A transaction is rolled back.
login plain
connect | @response | @greeting | ready
begin plain | @start | @ok | ready
clean | @rollback | @ok | ready
ping | @ping | @ok | ready
~ 1 | missing | 1
~ 2 | missing | accepted
= from 2 refuted 53

# The rest of a set is read before.
login plain
connect | @response | @greeting | ready
begin plain | @start | @ok | ready
query SELECT 1 | @select | @head | ready
clean | @rollback | @row @end @ok | ready
ping | @ping | @ok | ready
~ 1 | missing | 2
= from 3 refuted 53

# The server's error to that is the answer, and the next call tries again.
login plain
connect | @response | @greeting | ready
begin plain | @start | @ok | ready
clean | @rollback | @err | error 1064
ping | @rollback @ping | @ok @ok | ready
ping | @ping | @ok | ready
~ 2 | missing | 2
~ 2 | swapped | 2
= from 2 refuted 81

# A pool that stops in the rest of a set closes the connection.
login plain
connect | @response | @greeting | ready
query SELECT 1 | @select | @head | ready
clean | - | 02 | cancelled 1 | more | open, cancelled 1, link 4, eof 4
next | - | - | refused closed | closed
~ 2 | ending open | 3
= from 2 refuted 31

# A server that can reset its session does, and is sent the queries that follow; the statement is prepared anew.
login twice
connect | @response @do_2 @do_1 | @greeting @ok @ok | ready
prepare SELECT ? | @prepare | @prepared | stmt 1
renew | @reset @do_2 @do_1 | @ok @ok @ok | ready
prepare SELECT ? | @prepare | @prepared | stmt 1
ping | @ping | @ok | ready
~ 2 | sent byte 13 | 2
~ 2 | taken byte 14 | 2
~ 2 | missing | 2
~ 1 | missing | accepted
= from 2 refuted 83

# One that is too old gets the user of the options in force.
login plain
connect | @response | @greeting_564 | ready
user bob | @to_bob_bare | @ok | ready
renew | @to_bob_bare | @ok | ready
ping | @ping | @ok | ready
~ 1 | missing | 1
~ 1 | swapped | 1
= from 1 refuted 81

# They are so too where the server refused the change.
login plain
connect | @response | @greeting_564 | ready
user bob | @to_bob_bare | @err | error 1064
renew | @to_bob_bare | @ok | ready
ping | @ping | @ok | ready
~ 1 | missing | 1
~ 1 | swapped | 1
= from 1 refuted 81";
