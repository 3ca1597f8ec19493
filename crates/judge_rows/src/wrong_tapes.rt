//! Tapes that are refuted at their last call.

/// As in `TAPES`.
pub const WRONG_TAPES: &str = "\
login twice
connect | @response @do_2 @do_1 | @greeting @ok @ok | ready
# Nothing is sent, and the answer is that the server can reset its session.
-1 reset | - | - | flag 1
# Or that it cannot.
-1 reset | - | - | flag 0
# The answer comes before the OK.
-1 reset | @reset | - | flag 1
# The queries that follow are sent in the other order.
-1 reset | @reset @do_1 @do_2 | @ok @ok @ok | flag 1
# One of them is not sent.
-1 reset | @reset @do_2 | @ok @ok | flag 1
# The OK of the last one is not awaited.
-1 reset | @reset @do_2 @do_1 | @ok @ok | flag 1

login plain
connect | @response | @greeting | ready
begin plain | @start | @ok | ready
# The server's error is passed over.
-2 commit | @commit | @err | ready
# Nothing is rolled back after it.
-2 commit | @commit | @err | error 1064
# The answer to the rollback is not awaited.
-2 commit | @commit @rollback | @err | error 1064
# The second error is returned.
-2 commit | @commit @rollback | @err @err_1213 | error 1213
# What was committed is rolled back.
-2 commit | @commit @rollback | @ok @ok | ready
# Nothing is sent.
-2 commit | - | - | ready

login twice
connect | @response @do_2 @do_1 | @greeting @ok @ok | ready
# Nothing is sent.
-1 user bob | - | - | ready
# Another name is sent.
-1 user bob | @to_root | @ok | ready
# The answer comes before the OK.
-1 user bob | @to_bob_bare | - | ready
# The server's error is passed over.
-1 user bob | @to_bob_bare | @err | ready
# The queries that follow are sent in the other order.
-1 user bob | @to_bob_bare @do_1 @do_2 | @ok @ok @ok | ready
# They are not sent.
-1 user bob | @to_bob_bare | @ok | ready
# The OK of the last one is not awaited.
-1 user bob | @to_bob_bare @do_2 @do_1 | @ok @ok | ready

login plain
connect | @response | @greeting | ready
prepare SELECT ? | @prepare | @prepared | stmt 1
user bob | @to_bob_bare | @ok | ready
# The statement is found in the cache, where the change closed it.
-3 prepare SELECT ? | - | - | stmt 1

login plain
connect | @response | @greeting | ready
prepare SELECT ? | @prepare | @prepared | stmt 1
renew | @reset | @ok | ready
# The statement is found in the cache, where the renewal closed it.
-3 prepare SELECT ? | - | - | stmt 1

login plain
connect | @response | @greeting | ready
begin plain | @start | @ok | ready
query SELECT 1 | @select | @head | ready
# The ERR in the rest is returned.
-3 clean | - | @err_of_row | error 1064
# It is returned once the transaction is rolled back.
-3 clean | @rollback | @err_of_row @ok | error 1064
# The transaction is not rolled back.
-3 clean | - | @row @end | ready
# The answer to its rollback is not awaited.
-3 clean | @rollback | @row @end | ready
# The server's error to it is passed over.
-3 clean | @rollback | @err_of_row @err | ready
# Nothing is read.
-3 clean | - | - | ready

login plain
connect | @response | @greeting | ready
# Nothing is sent.
-1 renew | - | - | ready
# A server that can reset its session gets a user.
-1 renew | @to_root | @ok | ready
# The answer comes before the OK.
-1 renew | @reset | - | ready
# The server's error is passed over.
-1 renew | @reset | @err | ready

login plain
connect | @response | @greeting_564 | ready
# A server that cannot reset its session is asked to.
-1 renew | @reset | @ok | ready
# It gets another user.
-1 renew | @to_bob_bare | @ok | ready

login plain
connect | @response | @greeting_564 | ready
user bob | @to_bob_bare | @ok | ready
# It gets the user from before the change.
-2 renew | @to_root | @ok | ready

login plain
connect | @response | @greeting | ready
# A set is taken where none is.
-1 take | - | - | ready
# It is refused, but there is none.
-1 begin plain | - | - | refused nested
# The level is set after it has begun.
-1 begin full | @read_only @start_snapshot @level | @ok @ok @ok | ready
# The level is set after it has said that it only reads.
-1 begin full | @read_only @level @start_snapshot | @ok @ok @ok | ready
# It has begun before its OK.
-1 begin plain | @start | - | ready

login plain
connect | @response | @greeting | ready
query SELECT 1 | @select | @head | ready
# None is left where a set is.
-2 take | - | - | none

login plain
connect | @response | @greeting | ready
query SELECT 1 | @select | @head | ready
take | - | - | ready
# A set is passed over before its end.
-3 skip | - | @row | ready

login plain
connect | @response | @greeting | ready
query SELECT 1 | @select | @head | ready
take | - | - | ready
skip | - | @row @end | ready
# A row that was passed over is returned.
-4 next | - | - | row 1

login plain
connect | @response | @greeting | ready
query DO 1 | @do_1 | @ok_more | ready
take | - | - | ready
skip | - | @ok_2 | ready
# The next set is passed over, too.
-4 next | - | - | none

login plain
connect | @response | @greeting | ready
prepare SELECT ? | @prepare | @prepared | stmt 1
# A statement is prepared again, though it is cached.
-2 prepare SELECT ? | @prepare | @prepared | stmt 1
# A close is not sent.
-2 close 1 | - | - | ready
# Of a batch the second execution is not sent.
-2 batch 1, 2 | @execute_1 | @head @cell @end @ok | ready
# Or is sent first.
-2 batch 1, 2 | @execute_2 @execute_1 | @head @cell @end @ok | ready
# It is ready before its last response is read whole.
-2 batch 1, 2 | @execute_1 @execute_2 | @head @cell @end @head | ready

login plain
connect | @response | @greeting | ready
prepare SELECT ? | @prepare | @prepared | stmt 1
execute 1 | @execute_1 | @head | ready
# A row of an execution is read as text.
-3 next | - | @row | row 1

login plain
connect | @response | @greeting | ready
prepare SELECT ? | @prepare | @prepared | stmt 1
reset | @reset | @ok | flag 1
# A statement is found in the cache after a reset.
-3 prepare SELECT ? | - | - | stmt 1

login plain
connect | @response | @greeting | ready
begin plain | @start | @ok | ready
# A transaction begins in another one.
-2 begin plain | @start | @ok | ready
# It is given up and rolled back at once.
-2 forget | @rollback | @ok | ready
# A rollback sends nothing.
-2 rollback | - | - | ready

login plain
connect | @response | @greeting | ready
begin plain | @start | @ok | ready
forget | - | - | ready
# One that was given up is not rolled back by the next ping.
-3 ping | @ping | @ok | ready

login plain
connect | @response | @greeting | ready
begin plain | @start | @ok | ready
forget | - | - | ready
ping | @rollback @ping | @ok @ok | ready
# It is rolled back by the two next.
-4 ping | @rollback @ping | @ok @ok | ready

login plain
connect | @response | @greeting_564 | ready
# A server that is too old is told that it only reads.
-1 begin reading | @read_only @start | @ok @ok | ready

login plain
bytes | - | 00 | -
# A byte was received before the first call began.
-0 connect | @response | @greeting | ready | at 0 1

login plain
# Bytes are there without a call.
-0 bytes | @response | @greeting | -

login plain
connect | @response | @greeting | ready
ping | @ping | @ok | ready
next | - | - | none
# The OK of a ping answers a second one, too, which begins where the first one began.
-3 ping | - | - | ready | at 64 89

login plain
connect | @response | @greeting | ready
# A call begins after the end of the tape.
-1 next | - | - | none | at 65 89

login plain
connect | @response | @greeting | ready
query SELECT 1 | @select | @head | ready
next | - | - | open
# A read is open, and the next one gets the row.
-3 next | - | @row | row 1";
