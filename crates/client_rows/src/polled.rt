//! Talks whose calls are polled by hand.

/// A line is a call, what the link plays for it, and what the call sends with its answer. Before the call is at
/// most how many times it is polled, where that isn't once. The link plays bytes, in hexadecimal digits or by the
/// name of a part, and `turn`: what follows can be read once a write took a byte; `wait`, `fail`, `end`: what a
/// read meets; `accept=N`: a write takes N bytes; `wwait`, `wfail`: what a write meets. What is played after
/// `unread` isn't taken. What is sent is given for each call that the tape keeps of the line, `-` for nothing, and
/// then the answer. A row whose line of the connection gives nothing that is sent keeps no tape at the end.
pub const POLLED: &str = "\
# a whole talk

connect | @greeting turn @login_ok | @login, ok
ping | turn @changed | @ping, ok
changes || 3 7 1 note
server || 7 8.0.36 root 28800
query SELECT 1 | turn @head @row @end | @select, ok
next || -, row
next || -, end
next || -, none
query SELECT 1 | turn @head @row @end | @select, ok
drop || -, ok
quit || @quit, ok
server || closed

# the making of a connection over a link that is not ready, ends or fails, and a server that refuses

connect | wait | -, pending

2 connect | 0200 wait | -, pending

3 connect | wait @greeting turn wait @login_ok | @login, ok

connect | end | -, error end

connect | 0200 end | -, error end

connect | fail | -, error link

connect | @greeting wfail | -, error link

connect | @greeting turn @login_err | @login, error 1045

# errors, ends and faults in the midst

connect | @greeting turn @login_ok | @login, ok
query SELECT 1 | turn @err | @select, error 1064
ping | turn @ok | @ping, ok

connect | @greeting turn @login_ok | @login, ok
query SELECT 1 | turn @head 0200 end | @select, ok
next || -, error end
ping || -, error closed
quit || -, ok

connect | @greeting turn @login_ok | @login, ok
query SELECT 1 | turn fail | @select, error link
ping || -, error closed
quit || -, ok

connect | @greeting turn @login_ok | @login, ok
query SELECT 1 | turn accept=64 wfail | -, error link
quit || -, ok

# calls that are cancelled

connect | @greeting turn @login_ok | @login, ok
0 query SELECT 1 || cancelled
ping | turn @ok | @ping, ok

connect | @greeting turn @login_ok | @login, ok
query SELECT 1 | turn accept=64 wwait | -, cancelled and closed
ping || -, error closed

connect | @greeting turn @login_ok | @login, ok
query SELECT 1 | turn accept=64 accept=6 wwait | @select_cut, cancelled and closed
ping || -, error closed

connect | @greeting turn @login_ok | @login, ok
2 query SELECT 1 || @select, cancelled and closed
ping || -, error closed

connect | @greeting turn @login_ok | @login, ok
query SELECT 1 | turn @one wait | @select, cancelled and closed
ping || -, error closed

connect | @greeting turn @login_ok | @login, ok
query SELECT 1 | turn @head 0200 wait 00030131 @end | @select, ok
next || -, cancelled
next || -, row
next || -, end

connect | @greeting turn @login_ok | @login, ok
query SELECT 1 | turn @head wait @row @end | @select, ok
drop || -, cancelled
ping | turn @ok | @ping, ok

connect | @greeting turn @login_ok | @login, ok
query SELECT 1 | turn @head @row @more wait | @select, ok
drop || -, cancelled and closed
ping || -, error closed

connect | @greeting turn @login_ok | @login, ok
ping || @ping, cancelled and closed
ping || -, error closed

connect | @greeting turn @login_ok turn accept=64 wwait | @login, ok
quit || -, cancelled and closed
server || closed

# quits and checks

connect | @greeting turn @login_ok | @login, ok
quit || @quit, ok
quit || -, ok

connect | @greeting turn @login_ok | @login, ok
check || alive

connect | @greeting turn @login_ok end | @login, ok
check || dead

connect | @greeting turn @login_ok_and_more | @login, ok
check || unread

# no tape is kept

connect_untaped | @greeting turn @login_ok | ok
ping | turn @changed | ok
tape || none

# streams

connect | @greeting turn @login_ok | @login, ok
query SELECT 1 | turn @head @row @more @ok_5 | @select, ok
stream || -, ok
next || -, row
stream || -, -, ok
next || -, end
next || -, none
stream || -, none

connect | @greeting turn @login_ok | @login, ok
query SELECT 1 | turn @head @row wait @more @ok_5 | @select, ok
stream || -, ok
stream || -, cancelled
next || -, end
stream || -, ok

connect | @greeting turn @login_ok | @login, ok
query SELECT 1 | turn @head @row @more wait | @select, ok
stream || -, ok
stream || -, -, cancelled and closed
query SELECT 1 || -, error closed

connect | @greeting turn @login_ok | @login, ok
query SELECT 1 | turn @head @row @more wait @ok_5 | @select, ok
stream || -, ok
2 stream || -, -, ok

connect | @greeting turn @login_ok | @login, ok
query SELECT 1 | turn @head @row @more @err_5 | @select, ok
stream || -, ok
stream || -, -, error 1064

# tapes, options and facts

connect | @greeting turn @login_ok | ok
ping | turn @ok | ok
tape || kept
ping | turn @ok | ok
tape || none

connect | @greeting turn @login_ok | @login, ok
life || endless 28800000 reset
marks || pooled kept 7
query SELECT 1 | turn @ok | @select, ok
dirty || yes
next || -, end
dirty || no

connect | @greeting turn @login_ok | @login, ok
moment || 5
query SELECT 1 | turn @head @row @end | @select, ok
moment || 7
dirty || yes
next || -, row
dirty || yes
next || -, end
dirty || no

# prepared statements

connect | @greeting turn @login_ok | @login, ok
prepare SELECT :a | turn @statement | @prepare, statement of a
columns || one
execute a=42 | turn @head @binary_row @null_row @end_5 | @execute, ok
columns || one
next || -, row
next || -, row
next || -, end
close || @close, ok

connect | @greeting turn @login_ok | @login, ok
prepare SELECT :a | turn @statement | @prepare, statement of a
execute a=42 | turn @head @binary_row @end | @execute, ok
prepare SELECT :a || -, statement of a
next || -, row
next || -, end

connect | @greeting turn @login_ok | @login, ok
prepare SELECT :a | turn @statement | @prepare, statement of a
execute a=42 | turn @ok | @execute, ok
columns || one
next || -, end

connect | @greeting turn @login_ok | @login, ok
prepare SELECT :a | turn @statement | @prepare, statement of a
close || @close, ok
prepare SELECT :a | turn @statement | @prepare, statement of a

connect | @greeting turn @login_ok | @login, ok
prepare SELECT :a | turn wait | @prepare, cancelled and closed
ping || -, error closed

connect | @greeting turn @login_ok | @login, ok
prepare SELECT :a | turn @prepared wait unread @column @field | @prepare, cancelled and closed
ping || -, error closed

connect | @greeting turn @login_ok | @login, ok
prepare SELECT :a | turn @statement | @prepare, statement of a
execute a=42 | turn wait | @execute, cancelled and closed
ping || -, error closed

connect | @greeting turn @login_ok | @login, ok
prepare SELECT :a | turn @statement accept=64 accept=13 wwait | @prepare, statement of a
close || -, cancelled and closed
ping || -, error closed

connect | @greeting turn @login_ok | @login, ok
2 prepare SELECT :a | turn wait @statement | @prepare, statement of a

connect | @greeting turn @login_ok | @login, ok
prepare SELECT :a | turn @err | @prepare, error 1064
ping | turn @ok | @ping, ok

connect | @greeting turn @login_ok | @login, ok
prepare SELECT :a, ? || -, error mixed
ping | turn @ok | @ping, ok

connect | @greeting turn @login_ok | @login, ok
prepare SELECT :a | turn @statement | @prepare, statement of a
columns || one
execute || -, error params
columns || none
ping || -, error closed

# batches

connect | @greeting turn @login_ok | @login, ok
prepare SELECT :a | turn @statement | @prepare, statement of a
batch a=42 a=42 | turn @head @binary_row @end turn @head @binary_row @end | @execute @execute, ok
columns || one
dirty || no
next || -, none
ping | turn @ok | @ping, ok

connect | @greeting turn @login_ok | @login, ok
prepare SELECT :a | turn @statement | @prepare, statement of a
execute a=42 | turn @head @binary_row @end | @execute, ok
batch a=42 a=42 | turn @ok turn @ok | @execute @execute, ok
ping | turn @ok | @ping, ok

connect | @greeting turn @login_ok | @login, ok
prepare SELECT :a | turn @statement | @prepare, statement of a
execute a=42 | turn @head @binary_row @end | @execute, ok
batch || -, ok
next || -, row
ping | turn @ok | @ping, ok

connect | @greeting turn @login_ok | @login, ok
prepare SELECT :a | turn @statement | @prepare, statement of a
batch || -, ok
ping | turn @ok | @ping, ok

connect | @greeting turn @login_ok | @login, ok
prepare SELECT :a | turn @statement | @prepare, statement of a
batch a=42 - | turn @ok | @execute, error params
ping || -, error closed

connect | @greeting turn @login_ok | @login, ok
prepare SELECT :a | turn @statement | @prepare, statement of a
batch a=42 a=42 | turn @ok turn @err | @execute @execute, error 1064
ping | turn @ok | @ping, ok

connect | @greeting turn @login_ok | @login, ok
prepare SELECT :a | turn @statement | @prepare, statement of a
2 batch a=42 a=42 | turn @ok turn wait @ok | @execute @execute, ok

connect | @greeting turn @login_ok | @login, ok
prepare SELECT :a | turn @statement | @prepare, statement of a
batch a=42 a=42 | turn @ok wait | @execute @execute, cancelled and closed
ping || -, error closed

connect | @greeting turn @login_ok | @login, ok
prepare SELECT :a | turn @statement | @prepare, statement of a
batch a=42 a=42 | turn @ok end | @execute @execute, error end
ping || -, error closed

# resets

connect | @greeting turn @login_ok | @login, ok
query SELECT 1 | turn @head @row @end | @select, ok
reset | turn @ok | @reset, ok
ping | turn @ok | @ping, ok

connect | @greeting turn @login_ok | @login, ok
prepare SELECT :a | turn @statement | @prepare, statement of a
execute a=42 | turn @head @binary_row @end | @execute, ok
reset | turn @ok | @reset, ok
columns || one
prepare SELECT :a | turn @statement | @prepare, statement of a

connect | @greeting_5_7_2 turn @login_ok | @login, ok
prepare SELECT :a | turn @statement | @prepare, statement of a
execute a=42 | turn @head @binary_row @end | @execute, ok
reset || -, none
prepare SELECT :a || -, statement of a
next || -, row
next || -, end
ping | turn @ok | @ping, ok

connect | @greeting turn @login_ok | @login, ok
reset | turn @err | @reset, error 1064
ping | turn @ok | @ping, ok

connect | @greeting turn @login_ok | @login, ok
query SELECT 1 | turn @head @row @more @err_5 | @select, ok
reset || -, error 1064
ping | turn @ok | @ping, ok

connect | @greeting turn @login_ok | @login, ok
reset | turn end | @reset, error end
reset || -, error closed
quit || -, ok

connect | @greeting turn @login_ok | @login, ok
2 reset | turn wait @ok | @reset, ok

connect | @greeting turn @login_ok | @login, ok
reset | turn wait | @reset, cancelled and closed
ping || -, error closed

connect | @greeting turn @login_ok | @login, ok
reset | turn accept=64 wwait | -, cancelled and closed
ping || -, error closed

connect | @greeting turn @login_ok | @login, ok
query SELECT 1 | turn @head wait unread @row @end | @select, ok
reset || -, cancelled and closed
ping || -, error closed

connect | @greeting turn @login_ok | @login, ok
0 reset || cancelled
ping | turn @ok | @ping, ok

# transactions

connect | @greeting turn @login_ok | @login, ok
begin | turn @ok | @begin, ok
forget || -, ok
query SELECT 1 | turn wait | @rollback, cancelled and closed
ping || -, error closed

connect | @greeting turn @login_ok | @login, ok
begin | turn @ok | @begin, ok
begin || -, error nested
ping | turn @ok | @ping, ok

connect | @greeting turn @login_ok | @login, ok
begin serializable read only with snapshot | turn @ok turn @ok turn @ok | @serializable @read_only @snapshot, ok

connect | @greeting turn @login_ok | @login, ok
begin serializable read only with snapshot | turn @err | @serializable, error 1064
ping | turn @ok | @ping, ok

connect | @greeting turn @login_ok | @login, ok
begin serializable read only with snapshot | turn @ok turn @err | @serializable @read_only, error 1064
ping | turn @ok | @ping, ok

connect | @greeting turn @login_ok | @login, ok
begin serializable read only with snapshot | turn @ok turn @ok turn @err | @serializable @read_only @snapshot, error 1064
dirty || no
ping | turn @ok | @ping, ok

connect | @greeting_5_6_4 turn @login_ok | @login, ok
begin serializable read only with snapshot || -, error read only
ping | turn @ok | @ping, ok

connect | @greeting turn @login_ok | @login, ok
begin | turn @ok | @begin, ok
dirty || yes
forget || -, ok
dirty || yes
rollback | turn @ok | @rollback, ok
dirty || no

connect | @greeting turn @login_ok | @login, ok
begin | turn @ok | @begin, ok
forget || -, ok
ping | turn @err | @rollback, error 1064
dirty || yes
ping | turn @ok turn @ok | @rollback @ping, ok

connect | @greeting turn @login_ok | @login, ok
begin | turn @ok | @begin, ok
rollback | turn @err | @rollback, error 1064
dirty || yes
ping | turn @ok turn @ok | @rollback @ping, ok

connect | @greeting turn @login_ok | @login, ok
begin | turn @ok | @begin, ok
commit | turn @ok | @commit, ok
dirty || no

connect | @greeting turn @login_ok | @login, ok
begin | turn @ok | @begin, ok
commit | turn @err turn @ok | @commit @rollback, error 1064
dirty || no
ping | turn @ok | @ping, ok

connect | @greeting turn @login_ok | @login, ok
begin | turn @ok | @begin, ok
commit | turn @err turn @err | @commit @rollback, error 1064
dirty || yes
ping | turn @ok turn @ok | @rollback @ping, ok

connect | @greeting turn @login_ok | @login, ok
begin | turn @ok | @begin, ok
commit | turn @err turn end | @commit @rollback, error end
ping || -, error closed

connect | @greeting turn @login_ok | @login, ok
begin | turn @ok | @begin, ok
commit | turn @err turn wait | @commit @rollback, cancelled and closed
ping || -, error closed

connect | @greeting turn @login_ok | @login, ok
begin | turn @ok | @begin, ok
commit | turn wait | @commit, cancelled and closed
ping || -, error closed

connect | @greeting turn @login_ok | @login, ok
begin | turn @ok | @begin, ok
commit | turn accept=64 accept=22 wwait | -, cancelled and closed
ping || -, error closed

connect | @greeting turn @login_ok | @login, ok
begin | turn @ok | @begin, ok
query SELECT 1 | turn @head @row @more @err_5 | @select, ok
commit | turn @ok | @rollback, error 1064
ping | turn @ok | @ping, ok

connect | @greeting turn @login_ok | @login, ok
begin | turn @ok | @begin, ok
query SELECT 1 | turn @head @row @end | @select, ok
rollback | turn @ok | @rollback, ok

connect | @greeting turn @login_ok | @login, ok
begin | turn @ok | @begin, ok
reset | turn @ok | @reset, ok
dirty || yes
begin || -, error nested
ping | turn @ok | @ping, ok

connect | @greeting turn @login_ok | @login, ok
prepare SELECT :a | turn @statement | @prepare, statement of a
begin | turn @ok | @begin, ok
forget || -, ok
batch a=42 a=42 | turn @ok turn @head @binary_row @end turn @ok | @rollback @execute @execute, ok

connect | @greeting turn @login_ok | @login, ok
forget || -, ok
dirty || no
ping | turn @ok | @ping, ok

connect | @greeting turn @login_ok | @login, ok
quit || @quit, ok
forget || -, ok
begin || -, error closed
rollback || -, error closed

connect | @greeting turn @login_ok | @login, ok
2 begin | turn wait @ok | @begin, ok

connect | @greeting turn @login_ok | @login, ok
begin | turn accept=64 wwait | -, cancelled and closed
ping || -, error closed

connect | @greeting turn @login_ok | @login, ok
begin serializable read only with snapshot | turn wait | @serializable, cancelled and closed
ping || -, error closed

connect | @greeting turn @login_ok | @login, ok
begin serializable read only with snapshot | turn @ok turn wait | @serializable @read_only, cancelled and closed
ping || -, error closed

connect | @greeting turn @login_ok | @login, ok
begin serializable read only with snapshot | turn @ok turn @ok turn wait | @serializable @read_only @snapshot, cancelled and closed
ping || -, error closed

connect | @greeting turn @login_ok | @login, ok
query SELECT 1 | turn @head wait unread @row @end | @select, ok
begin || -, cancelled and closed
ping || -, error closed

connect | @greeting turn @login_ok | @login, ok
begin | turn @ok | @begin, ok
rollback | turn wait | @rollback, cancelled and closed
ping || -, error closed

# changes of user

connect | @greeting turn @login_ok | @login, ok
user bob | turn @ok | @bob, ok
account || bob
ping | turn @ok | @ping, ok

connect | @greeting turn @login_ok | @login, ok
user bob secret shop | turn @ok | @bob_in_shop, ok
account || bob
ping | turn @ok | @ping, ok

connect | @greeting turn @login_ok | @login, ok
user bob | turn @err | @bob, error 1064
account || bob
ping | turn @ok | @ping, ok

connect | @greeting turn @login_ok | @login, ok
prepare SELECT :a | turn @statement | @prepare, statement of a
execute a=42 | turn @head @binary_row @end | @execute, ok
user bob | turn @ok | @bob, ok
columns || one
prepare SELECT :a | turn @statement | @prepare, statement of a

connect | @greeting turn @login_ok | @login, ok
begin | turn @ok | @begin, ok
forget || -, ok
user bob | turn @ok turn @ok | @rollback @bob, ok
dirty || no
ping | turn @ok | @ping, ok

connect | @greeting turn @login_ok | @login, ok
begin | turn @ok | @begin, ok
forget || -, ok
user bob | turn @ok turn @err | @rollback @bob, error 1064
ping | turn @ok | @ping, ok

connect | @greeting turn @login_ok | @login, ok
query SELECT 1 | turn @head @row @more @err_5 | @select, ok
user bob || -, error 1064
ping | turn @ok | @ping, ok

connect | @greeting turn @login_ok | @login, ok
2 user bob | turn @ok | @bob, ok
ping | turn @ok | @ping, ok

connect | @greeting turn @login_ok | @login, ok
2 user bob | turn wait @ok | @bob, ok

connect | @greeting turn @login_ok | @login, ok
0 user bob || cancelled
server || 7 8.0.36 root 28800
ping | turn @ok | @ping, ok

connect | @greeting turn @login_ok | @login, ok
user bob | turn end | @bob, error end
user bob || -, error closed
quit || -, ok

connect | @greeting turn @login_ok | @login, ok
user bob | turn wait | @bob, cancelled and closed
ping || -, error closed

connect | @greeting turn @login_ok | @login, ok
user bob | turn accept=64 wwait | -, cancelled and closed
ping || -, error closed

connect | @greeting turn @login_ok | @login, ok
query SELECT 1 | turn @head wait unread @row @end | @select, ok
user bob || -, cancelled and closed
ping || -, error closed

connect | @greeting turn @login_ok | @login, ok
begin | turn @ok | @begin, ok
forget || -, ok
user bob | turn wait | @rollback, cancelled and closed
ping || -, error closed

# cleaning for a pool

connect | @greeting turn @login_ok | @login, ok
clean || -, ok
dirty || no
ping | turn @ok | @ping, ok

connect | @greeting turn @login_ok | @login, ok
query SELECT 1 | turn @head @row @more @err_5 | @select, ok
clean || -, ok
dirty || no
ping | turn @ok | @ping, ok

connect | @greeting turn @login_ok | @login, ok
begin | turn @ok | @begin, ok
clean | turn @ok | @rollback, ok
dirty || no
ping | turn @ok | @ping, ok

connect | @greeting turn @login_ok | @login, ok
begin | turn @ok | @begin, ok
query SELECT 1 | turn @head @row @more @err_5 | @select, ok
clean | turn @ok | @rollback, ok
dirty || no
ping | turn @ok | @ping, ok

connect | @greeting turn @login_ok | @login, ok
begin | turn @ok | @begin, ok
clean | turn @err | @rollback, error 1064
dirty || yes
ping | turn @ok turn @ok | @rollback @ping, ok

connect | @greeting turn @login_ok | @login, ok
query SELECT 1 | turn @head 0200 end | @select, ok
clean || -, error end
ping || -, error closed

connect | @greeting turn @login_ok | @login, ok
0 clean || cancelled
ping | turn @ok | @ping, ok

connect | @greeting turn @login_ok | @login, ok
quit || @quit, ok
clean || -, error closed
quit || -, ok

connect | @greeting turn @login_ok | @login, ok
query SELECT 1 | turn @head wait unread @row @end | @select, ok
clean || -, cancelled and closed
ping || -, error closed

connect | @greeting turn @login_ok | @login, ok
begin | turn @ok | @begin, ok
clean | turn wait | @rollback, cancelled and closed
ping || -, error closed

# renewing for a pool

connect | @greeting turn @login_ok | @login, ok
renew | turn @ok | @reset, ok
ping | turn @ok | @ping, ok

connect | @greeting_5_7_2 turn @login_ok | @login, ok
renew | turn @ok | @root, ok
ping | turn @ok | @ping, ok

connect | @greeting_5_7_2 turn @login_ok | @login, ok
user bob secret shop | turn @ok | @bob_in_shop, ok
renew | turn @ok | @bob_in_shop, ok
account || bob
ping | turn @ok | @ping, ok

connect | @greeting turn @login_ok | @login, ok
prepare SELECT :a | turn @statement | @prepare, statement of a
execute a=42 | turn @head @binary_row @end | @execute, ok
renew | turn @ok | @reset, ok
columns || one
prepare SELECT :a | turn @statement | @prepare, statement of a

connect | @greeting turn @login_ok | @login, ok
renew | turn @err | @reset, error 1064
ping | turn @ok | @ping, ok

connect | @greeting_5_7_2 turn @login_ok | @login, ok
renew | turn @err | @root, error 1064
ping | turn @ok | @ping, ok

connect | @greeting turn @login_ok | @login, ok
query SELECT 1 | turn @head @row @more @err_5 | @select, ok
renew || -, error 1064
ping | turn @ok | @ping, ok

connect | @greeting turn @login_ok | @login, ok
renew | turn end | @reset, error end
renew || -, error closed
quit || -, ok

connect | @greeting turn @login_ok | @login, ok
renew | turn wait | @reset, cancelled and closed
ping || -, error closed

connect | @greeting_5_7_2 turn @login_ok | @login, ok
renew | turn wait | @root, cancelled and closed
ping || -, error closed

connect | @greeting turn @login_ok | @login, ok
renew | turn accept=64 wwait | -, cancelled and closed
ping || -, error closed

connect | @greeting turn @login_ok | @login, ok
query SELECT 1 | turn @head wait unread @row @end | @select, ok
renew || -, cancelled and closed
ping || -, error closed

connect | @greeting turn @login_ok | @login, ok
begin | turn @ok | @begin, ok
forget || -, ok
renew | turn wait | @rollback, cancelled and closed
ping || -, error closed

# texts that follow the login

connect SET @a = 42 | @greeting turn @login_ok turn @ok | @login, @set, -, ok

connect SET @a = 42 | @greeting turn @login_ok turn @ok | @login, @set, -, ok
moment || 5
ping | turn @ok | @ping, ok

connect SELECT 1 then SET @a = 42 | @greeting turn @login_ok turn @head @row @end turn @ok | @login, @select, -, @set, -, ok

connect SET @a = 42 | @greeting turn @login_ok turn wait | @login, @set, pending

2 connect SET @a = 42 | @greeting turn @login_ok turn wait @ok | @login, @set, -, ok

connect SELECT 1 | @greeting turn @login_ok turn @head wait unread @row @end | @login, @select, -, pending

2 connect SELECT 1 then SET @a = 42 | @greeting turn @login_ok turn @head wait @row @end turn @ok | @login, @select, -, @set, -, ok

connect SET @a = 42 | @greeting turn @login_ok turn @err | @login, @set, error 1064

connect SET @a = 42 | @greeting turn @login_ok turn end | @login, @set, error end

connect SET @a = 42 | @greeting turn @login_ok turn fail | @login, @set, error link

connect reject | @greeting turn @login_ok | @login, error rejected

connect SET @a = 42 then reject | @greeting turn @login_ok turn @ok | @login, @set, -, error rejected";

/// A talk that is the same where the link isn't ready once before any one of its bytes. Its parts are spelled out,
/// since it is played once for each.
pub const HELD: &str = "\
2 connect | 4a0000000a382e302e333600070000006162636465666768008ba22d02001f011500000000000000000000696a6b6c6d6e6f7071727374006d7973716c5f6e61746976655f70617373776f726400 turn 0700000200000002000000 | 3c00000181a20f01000040002d0000000000000000000000000000000000000000000000726f6f7400006d7973716c5f6e61746976655f70617373776f726400, ok
2 prepare SELECT :a | turn 0c00000100010000000100010000000017000002036465660000000131000c3f000100000008810000000017000003036465660000000131000c3f0001000000088100000000 | 090000001653454c454354203f, statement of a
2 batch a=42 a=42 | turn 010000010117000002036465660000000131000c3f0001000000088100000000 0a00000300000100000000000000 07000004fe000002000000 turn 0700000100000002000000 | 1600000017010000000001000000000108002a00000000000000 1600000017010000000001000000000108002a00000000000000, ok
2 next || -, none
2 reset | turn 0700000100000002000000 | 010000001f, ok
2 begin serializable read only with snapshot | turn 0700000100000002000000 turn 0700000100000002000000 turn 0700000100000002000000 | 2d00000003534554205452414e53414354494f4e2049534f4c4154494f4e204c4556454c2053455249414c495a41424c45 1a00000003534554205452414e53414354494f4e2052454144204f4e4c59 2b000000035354415254205452414e53414354494f4e205749544820434f4e53495354454e5420534e415053484f54, ok
2 rollback | turn 0700000100000002000000 | 0900000003524f4c4c4241434b, ok
2 user bob secret shop | turn 0700000100000002000000 | 3700000011626f6200148817c50fa779daef010ee7577825b0847df9842e73686f70002d006d7973716c5f6e61746976655f70617373776f726400, ok
2 begin | turn 0700000100000002000000 | 12000000035354415254205452414e53414354494f4e, ok
2 clean | turn 0700000100000002000000 | 0900000003524f4c4c4241434b, ok
2 renew | turn 0700000100000002000000 | 010000001f, ok";
