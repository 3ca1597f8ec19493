//! Prepared statements: what is sent for them, rows of the binary protocol, and the cache. The values are those of the pages
//! "Prepared Statements" and "Binary Protocol Resultset" of the MySQL internals.

pub const STATEMENTS: &str = "\
# prepared: a column of each type, and its NULL
>@ greeting prepared
> packet 0 1 21|packet 0 2 036465660000000131000c3f0001000000010000000000
> packet 0 3 036465660000000131000c3f0001000000012000000000|packet 0 4 036465660000000131000c3f0001000000020000000000
> packet 0 5 036465660000000131000c3f00010000000d2000000000|packet 0 6 036465660000000131000c3f0001000000030000000000
> packet 0 7 036465660000000131000c3f0001000000092000000000|packet 0 8 036465660000000131000c3f0001000000080000000000
> packet 0 9 036465660000000131000c3f0001000000082000000000|packet 0 10 036465660000000131000c3f0001000000040000000000
> packet 0 11 036465660000000131000c3f0001000000050000000000
> packet 0 12 036465660000000131000c3f00010000000a0000000000
> packet 0 13 036465660000000131000c3f00010000000c0000000000
> packet 0 14 036465660000000131000c3f0001000000070000000000
> packet 0 15 036465660000000131000c3f00010000000c0000000000
> packet 0 16 036465660000000131000c3f00010000000b0000000000
> packet 0 17 036465660000000131000c3f00010000000b0000000000
> packet 0 18 036465660000000131000c3f00010000000b0000000000
> packet 0 19 036465660000000131000c3f0001000000f60000000000
> packet 0 20 036465660000000131000c3f0001000000fd0000000000
> packet 0 21 036465660000000131000c3f0001000000102000000000
> packet 0 22 036465660000000131000c3f0001000000f50000000000
> packet 0 23 036465660000000131000c3f0001000000fc9000000000
> packet 0 24 036465660000000131000c3f0001000000000000000000
> packet 0 25 036465660000000131000c3f00010000000f0000000000
> packet 0 26 036465660000000131000c3f0001000000f20000000000
> packet 0 27 036465660000000131000c3f0001000000f70000000000
> packet 0 28 036465660000000131000c3f0001000000f80000000000
> packet 0 29 036465660000000131000c3f0001000000f90000000000
> packet 0 30 036465660000000131000c3f0001000000fa0000000000
> packet 0 31 036465660000000131000c3f0001000000fb0000000000
> packet 0 32 036465660000000131000c3f0001000000fe0000000000
> packet 0 33 036465660000000131000c3f0001000000ff0000000000
> packet 0 34 036465660000000131000c3f0001000000060000000000
> packet 0 35 000000000004ffff0080ea07ffffffffffffff000000000000000080ffffffffffffffff0000c03f000000000000d0bf04e807021d07e807021d0102030be807021d01020340420f000000080122000000163a3b0c0122000000163a3b48e80100042d312e350261620202010001000130013101320133013401350136013701380139
> packet 0 36 00fcffffff07|packet 0 37 fe000002000000
>@ turn
> conn|prep 0 T|exec 0 0|next 0|next 0|next 0|next 0
<@ connected
< 2 stmt 0 id=1 params=0 columns=0|3 ok
< 4 row i:-1 i:255 i:-32768 i:2026 i:-1 i:16777215 i:-9223372036854775808 u:18446744073709551615 f:3fc00000 d:bfd0000000000000 D:2024-2-29_0:0:0.0 D:2024-2-29_1:2:3.0 D:2024-2-29_1:2:3.1000000 D:0-0-0_0:0:0.0 T:0_0_0:0:0.0 T:1_34_22:58:59.0 T:1_34_22:58:59.125000 b:2d312e35 b:6162 b:0201 b: b:00 b:30 b:31 b:32 b:33 b:34 b:35 b:36 b:37 b:38 b:39 NULL
< 5 row NULL NULL NULL NULL NULL NULL NULL NULL NULL NULL NULL NULL NULL NULL NULL NULL NULL NULL NULL NULL NULL NULL NULL NULL NULL NULL NULL NULL NULL NULL NULL NULL NULL
< 6 end|7 none
judge 146 1 547 120 0 363

# prepared: NULL in the last column, and in the first
>@ greeting prepared
> packet 0 1 06
>* 6 2 packet 0 %d 0; 036465660000000131000c3f0001000000010000000000|
> packet 0 8 00800505050505|packet 0 9 00040505050505|packet 0 10 fe000002000000|turn 0
> packet 0 1 07
>* 7 2 packet 0 %d 0; 036465660000000131000c3f0001000000010000000000|
> packet 0 9 000001050505050505|packet 0 10 000400050505050505|packet 0 11 fe000002000000|turn 0
> packet 0 1 0e
>* 14 2 packet 0 %d 0; 036465660000000131000c3f0001000000010000000000|
> packet 0 16 00008005050505050505050505050505|packet 0 17 00040005050505050505050505050505|packet 0 18 fe000002000000|turn 0
> packet 0 1 0f
>* 15 2 packet 0 %d 0; 036465660000000131000c3f0001000000010000000000|
> packet 0 17 000000010505050505050505050505050505|packet 0 18 000400000505050505050505050505050505|packet 0 19 fe000002000000|turn 0
> conn|prep 0 T|exec 0 0|collect 0|exec 0 0|collect 0|exec 0 0|collect 0|exec 0 0|collect 0
<@ connected
< 2 stmt 0 id=1 params=0 columns=0|3 ok|4 rows 2 [i:5 i:5 i:5 i:5 i:5 NULL] [NULL i:5 i:5 i:5 i:5 i:5]|5 ok
< 6 rows 2 [i:5 i:5 i:5 i:5 i:5 i:5 NULL] [NULL i:5 i:5 i:5 i:5 i:5 i:5]|7 ok
< 8 rows 2 [i:5 i:5 i:5 i:5 i:5 i:5 i:5 i:5 i:5 i:5 i:5 i:5 i:5 NULL] [NULL i:5 i:5 i:5 i:5 i:5 i:5 i:5 i:5 i:5 i:5 i:5 i:5 i:5]
< 9 ok
< 10 rows 2 [i:5 i:5 i:5 i:5 i:5 i:5 i:5 i:5 i:5 i:5 i:5 i:5 i:5 i:5 NULL] [NULL i:5 i:5 i:5 i:5 i:5 i:5 i:5 i:5 i:5 i:5 i:5 i:5 i:5 i:5]
judge 259 0 1411 183 0 1194

# prepared: a name at two places
>@ greeting
> packet 0 1 000100000000000300000000
>* 3 2 packet 0 %d 0; 036465660000000131000c3f0001000000088100000000|
>@ turn ok
> conn|prep 0 SELECT :foo, :bar, :foo|execn 0 0 foo=b:626172 bar=i:42
<@ connected
< 2 stmt 0 id=1 params=3 columns=0|3 ok
<@ sent
<. 0f0000001653454c454354203f2c203f2c203f
<. 22000000170100000000010000000001fd000800fd00036261722a0000000000000003626172
<@ taken
judge 59 0 111 21 0 39

# prepared: a name ends before a capital letter, and mixed parameters
>@ greeting
> packet 0 1 000100000000000100000000|packet 0 2 036465660000000131000c3f0001000000088100000000
>@ turn ok
> conn|prep 0 SELECT :fooBar|prep 0 SELECT :a, ?|ping 0
<@ connected
< 2 stmt 0 id=1 params=1 columns=0|3 error Driver MixedParams|4 ok
<@ sent
<. 0c0000001653454c454354203f426172
<@ ping taken
judge 80 0 189 15 0 30

# prepared: a cache of one statement
$ script|mysql://root@localhost?max_allowed_packet=4194304&wait_timeout=28800&stmt_cache_size=1
>@ greeting prepared ok prepared_2 ok
> conn|prep 0 DO 1|exec 0 0|prep 0 DO 2|exec 0 1
<@ connected
< 2 stmt 0 id=1 params=0 columns=0|3 ok|4 stmt 1 id=2 params=0 columns=0|5 ok
<@ sent prepare_1 execute_1 prepare_2 close_1 execute_2 taken
judge 99 0 280 18 0 48

# prepared: no cache
$ script|mysql://root@localhost?max_allowed_packet=4194304&wait_timeout=28800&stmt_cache_size=0
>@ greeting prepared prepared_2
> conn|prep 0 DO 1|prep 0 DO 1
<@ connected
< 2 stmt 0 id=1 params=0 columns=0|3 stmt 1 id=2 params=0 columns=0
<@ sent prepare_1 prepare_1 taken
judge 61 0 118 12 0 21

# prepared: an id that is still cached
$ script|mysql://root@localhost?max_allowed_packet=4194304&wait_timeout=28800&stmt_cache_size=2
>@ greeting prepared ok prepared
> conn|prep 0 DO 1|exec 0 0|prep 0 DO 2|ping 0
<@ connected
< 2 stmt 0 id=1 params=0 columns=0|3 ok|4 error Io InvalidData 4|5 error Driver ConnectionClosed
judge 96 0 260 15 0 33

# prepared: too few values
>@ greeting parameter
> conn|prep 0 DO ?|exec 0 0|ping 0
<@ connected
< 2 stmt 0 id=1 params=1 columns=0|3 error Driver StmtParamsMismatch 1 0|4 error Driver ConnectionClosed
judge 76 0 169 12 0 18

# prepared: a value of each kind
>@ greeting
> packet 0 1 000700000000000800000000
>* 8 2 packet 0 %d 0; 036465660000000131000c3f0001000000088100000000|
>@ turn ok
> conn|prep 0 DO
> exec 0 0 NULL b:61 i:-2 u:18446744073709551615 D:2024-2-29_0:0:0.0 D:2024-2-29_1:2:3.4 T:0_0_0:0:0.0 T:1_1_2:3:4.5
<@ connected
< 2 stmt 0 id=7 params=8 columns=0|3 ok
<@ sent
<. 0300000016444f
<. 4d0000001707000000000100000001010600fd00080008800c000c000b000b000161feffffffffffffffffffffffffffffff04e807021d0be807021d01020304000000000c010100000002030405000000
<@ taken
judge 59 0 112 36 0 69

# prepared: one that is closed
>@ greeting prepared prepared_2
> conn|prep 0 DO 1|prep 0 DO 1|closestmt 0 0|exec 0 0|prep 0 DO 1|closestmt 0 3|closestmt 0 1
<@ connected
< 2 stmt 0 id=1 params=0 columns=0|3 stmt 1 id=1 params=0 columns=0|4 ok|5 refused NoSuchHandle
< 6 stmt 2 id=2 params=0 columns=0|7 refused NoSuchHandle|8 ok
<@ sent prepare_1 close_1 prepare_1 close_1 taken
judge 142 1 555 12 0 30

# prepared: a name without a value
>@ greeting parameter
> conn|prep 0 DO :a|execn 0 0 b=i:1|ping 0
<@ connected
< 2 stmt 0 id=1 params=1 columns=0|3 error Driver Params Missing b:61|4 error Driver ConnectionClosed
judge 76 0 169 12 0 18

# prepared: values without names
>@ greeting parameter
> conn|prep 0 DO :a|exec 0 0 i:1|ping 0
<@ connected
< 2 stmt 0 id=1 params=1 columns=0|3 error Driver Params Kind|4 error Driver ConnectionClosed
judge 76 0 169 12 0 18

# prepared: a value that no parameter has
>@ greeting parameter
> conn|prep 0 DO :a|execn 0 0 a=f:3fc00000|ping 0
<@ connected
< 2 stmt 0 id=1 params=1 columns=0|3 error Driver Params Kind|4 error Driver ConnectionClosed
judge 76 0 169 12 0 18

# values: each kind, in a row and among rows
>@ greeting prepared
> packet 0 1 09|packet 0 2 036465660000000131000c3f0001000000fd0000000000
> packet 0 3 036465660000000131000c3f0001000000fd0000000000|packet 0 4 036465660000000131000c3f0001000000080000000000
> packet 0 5 036465660000000131000c3f0001000000082000000000|packet 0 6 036465660000000131000c3f0001000000040000000000
> packet 0 7 036465660000000131000c3f0001000000050000000000|packet 0 8 036465660000000131000c3f00010000000c0000000000
> packet 0 9 036465660000000131000c3f00010000000b0000000000|packet 0 10 036465660000000131000c3f00010000000b0000000000
> packet 0 11 00040002610afbffffffffffffffffffffffffffffff0000803f01000000000000400bea070b1d032300780000000c0101000000020304050000000c0022000000163a3b3f420f00|packet 0 12 00040002610afbffffffffffffffffffffffffffffff0000803f01000000000000400bea070b1d032300780000000c0101000000020304050000000c0022000000163a3b3f420f00
> packet 0 13 fe000002000000|turn 0|conn|prep 0 T|exec 0 0|next 0|collect 0
<@ connected
< 2 stmt 0 id=1 params=0 columns=0|3 ok
< 4 row NULL b:610a i:-5 u:18446744073709551615 f:3f800000 d:4000000000000001 D:2026-11-29_3:35:0.120 T:1_1_2:3:4.5 T:0_34_22:58:59.999999
< 5 rows 1 [NULL b:610a i:-5 u:18446744073709551615 f:3f800000 d:4000000000000001 D:2026-11-29_3:35:0.120 T:1_1_2:3:4.5 T:0_34_22:58:59.999999]
judge 106 1 317 48 0 144

# values: the least of each kind
>@ greeting prepared
> packet 0 1 07|packet 0 2 036465660000000131000c3f0001000000fd0000000000
> packet 0 3 036465660000000131000c3f0001000000080000000000|packet 0 4 036465660000000131000c3f0001000000082000000000
> packet 0 5 036465660000000131000c3f0001000000040000000000|packet 0 6 036465660000000131000c3f0001000000050000000000
> packet 0 7 036465660000000131000c3f00010000000c0000000000|packet 0 8 036465660000000131000c3f00010000000b0000000000
> packet 0 9 00000000000000000000000000000000000000000000000000000000000000000000|packet 0 10 00000000000000000000000000000000000000000000000000000000000000000000
> packet 0 11 fe000002000000|turn 0|conn|prep 0 T|exec 0 0|next 0|collect 0
<@ connected
< 2 stmt 0 id=1 params=0 columns=0|3 ok
< 4 row b: i:0 u:0 f:00000000 d:0000000000000000 D:0-0-0_0:0:0.0 T:0_0_0:0:0.0
< 5 rows 1 [b: i:0 u:0 f:00000000 d:0000000000000000 D:0-0-0_0:0:0.0 T:0_0_0:0:0.0]
judge 107 0 321 42 0 126

# values: integers at their limits
>@ greeting
> packet 0 1 000100000000000300000000
>* 3 2 packet 0 %d 0; 036465660000000131000c3f0001000000088100000000|
>@ turn ok
> conn|prep 0 DO|exec 0 0 i:-9223372036854775808 i:9223372036854775807 u:18446744073709551615
<@ connected
< 2 stmt 0 id=1 params=3 columns=0|3 ok
<@ sent
<. 0300000016444f
<. 2a0000001701000000000100000000010800080008800000000000000080ffffffffffffff7fffffffffffffffff
<@ taken
judge 59 0 111 21 0 39

# values: the least of each kind that is sent, and moments
>@ greeting
> packet 0 1 000700000000000800000000
>* 8 2 packet 0 %d 0; 036465660000000131000c3f0001000000088100000000|
>@ turn ok
> conn|prep 0 DO
> exec 0 0 b:610a D:2026-11-29_3:35:0.120 T:0_34_22:58:59.999999 b: i:0 u:0 D:0-0-0_0:0:0.0 T:0_0_0:0:0.0
<@ connected
< 2 stmt 0 id=7 params=8 columns=0|3 ok
<@ sent
<. 0300000016444f
<. 4b000000170700000000010000000001fd000c000b00fd00080008800c000b0002610a0bea070b1d032300780000000c0022000000163a3b3f420f0000000000000000000000000000000000000000
<@ taken
judge 59 0 112 36 0 69

# values: of two values of one name the last counts
>@ greeting
> packet 0 1 000100000000000300000000
>* 3 2 packet 0 %d 0; 036465660000000131000c3f0001000000088100000000|
>@ turn ok
> conn|prep 0 SELECT :foo, :bar, :foo|execn 0 0 foo=b:626172 bar=i:42 foo=NULL
<@ connected
< 2 stmt 0 id=1 params=3 columns=0|3 ok
<@ sent
<. 0f0000001653454c454354203f2c203f2c203f
<. 1a0000001701000000000100000005010600080006002a00000000000000
<@ taken
judge 59 0 111 21 0 39

# values: no names where some are wanted
>@ greeting parameter
> conn|prep 0 DO :a|execn 0 0|ping 0
<@ connected
< 2 stmt 0 id=1 params=1 columns=0|3 error Driver Params Missing b:61|4 error Driver ConnectionClosed
judge 76 0 169 12 0 18

# values: none where names are wanted
>@ greeting parameter
> conn|prep 0 DO :a|exec 0 0|ping 0
<@ connected
< 2 stmt 0 id=1 params=1 columns=0|3 error Driver Params Kind|4 error Driver ConnectionClosed
judge 76 0 169 12 0 18

# values: as many as a statement can take
unjudged
>@ greeting prepared
> conn|prep 0 DO 1
>. exec 0 0
>* 65535 0  NULL
>
> ping 0
<@ connected
< 2 stmt 0 id=1 params=0 columns=0|3 error Driver StmtParamsMismatch 0 65535|4 error Driver ConnectionClosed

# values: one more than a statement can take
unjudged
>@ greeting prepared
> conn|prep 0 DO 1
>. exec 0 0
>* 65536 0  NULL
>
> ping 0
<@ connected
< 2 stmt 0 id=1 params=0 columns=0|3 error Driver StmtParamsNumberExceedsLimit 65536|4 error Driver ConnectionClosed

# prepared: 300 statements, of which three are cached
uncounted
room 1048576
$ script|mysql://root@localhost?max_allowed_packet=4194304&wait_timeout=28800&stmt_cache_size=3
>@ greeting
>* 300 100 packet 0 1 00%l 0;00000000000000|turn 0|
> conn
>* 300 100 prep 0 DO %d 0;|
> prep 0 DO 399
<@ connected
<* 300 0 %d 2; stmt %d 0; id=%d 100; params=0 columns=0|
< 302 stmt 300 id=399 params=0 columns=0
<@ sent
<* 3 100 0700000016444f20%h 0;
<* 297 100 0700000016444f20%h 3;0500000019%l 0;
<@ taken

# prepared: each answer shows its own number
>@ greeting
> packet 0 1 000500000002000100000000|packet 0 2 03646566000000013f000c3f0001000000088100000000
> packet 0 3 036465660000000131000c3f0001000000088100000000|packet 0 4 036465660000000131000c3f0001000000088100000000
>@ turn ok
> conn|prep 0 DO ?|ping 0|prep 0 DO ?
<@ connected
< 2 stmt 0 id=5 params=1 columns=2|3 ok|4 stmt 1 id=5 params=1 columns=2
<@ sent prepare_question ping taken
judge 79 1 186 21 0 39

# prepared: numbers that are taken and spent
>@ greeting
> accept 0 64|accept 0 9|accept 0 9|accept 0 5|wwait 0
>@ held prepared prepared_2 held ok ok
> packet 0 1 000800000000000000000000|turn 0
>@ ok
> conn|prep 0 DO 1|poll 0|prep 0 DO 2|ping 0|closestmt 0 1|poll 0|closestmt 0 0|poll 0|exec 0 0|exec 0 1|prep 0 DO 3
> exec 0 2|exec 0 3
<@ connected
< 2 pending|3 stmt 0 id=1 params=0 columns=0|4 stmt 1 id=2 params=0 columns=0|5 pending|6 refused NoSuchHandle|7 ok
< 8 pending|9 ok|10 refused NoSuchHandle|11 ok|12 stmt 2 id=8 params=0 columns=0|13 ok|14 refused NoSuchHandle
<@ sent prepare_1 prepare_2 ping close_1 execute_2
<. 0500000016444f2033
<. 0a00000017080000000001000000
<@ taken
judge 267 0 1743 24 0 160

# prepared: executed and closed
>@ greeting prepared_set head
> packet 0 3 00000500000000000000|packet 0 4 fe000002000000|turn 0
> conn|exec 0 0 i:1|prep 0 SELECT ?|exec 0 0 i:1|next 0|next 0|closestmt 0 0|exec 0 0 i:1
<@ connected
< 2 refused NoSuchHandle|3 stmt 0 id=1 params=1 columns=1|4 ok|5 row i:5|6 end|7 ok|8 refused NoSuchHandle
<@ sent
<. 090000001653454c454354203f
<. 1600000017010000000001000000000108000100000000000000
<@ close_1 taken
other 4 exec 0 0 i:2
other 4 exec 0 1 i:1
other 7 closestmt 0 1
judge 143 0 582 27 0 90

# prepared: gathering that is held, and polled
>@ greeting prepared_set head held
> packet 0 3 00000600000000000000|packet 0 4 fe000002000000|turn 0
> conn|prep 0 SELECT ?|exec 0 0 i:1|collect 0|poll 0
<@ connected
< 2 stmt 0 id=1 params=1 columns=1|3 ok|4 pending|5 rows 1 [i:6]
judge 100 0 291 27 0 72

# prepared: two, of which a cached one is found again
>@ greeting prepared prepared_2 ok
> conn|prep 0 DO 1|prep 0 DO 2|prep 0 DO 1|exec 0 1|closestmt 0 1|closestmt 0 1
<@ connected
< 2 stmt 0 id=1 params=0 columns=0|3 stmt 1 id=2 params=0 columns=0|4 stmt 2 id=1 params=0 columns=0|5 ok|6 ok
< 7 refused NoSuchHandle
<@ sent prepare_1 prepare_2 execute_2 close_2 taken
other 5 exec 0 0
judge 132 1 452 15 0 36

# prepared: a reply that is held, and polled
>@ greeting
> packet 0 1 000100000000000100000000|wait 0|packet 0 2 03646566000000013f000c3f0001000000088100000000|turn 0
>@ ok
> conn|prep 0 DO :one|poll 0|execn 0 0 one=b:61|prep 0 DO :one, ?|fields 0
<@ connected
< 2 pending|3 stmt 0 id=1 params=1 columns=0|4 ok|5 error Driver MixedParams
< 6 ok affected=0 insert=- warnings=0 status=2 info=b:
<@ sent prepare_question
<. 10000000170100000000010000000001fd000161
<@ taken
judge 106 0 325 15 0 33

# prepared: too few values close
>@ greeting prepared_set
> conn|prep 0 SELECT ?|exec 0 0|exec 0 0 i:1
<@ connected
< 2 stmt 0 id=1 params=1 columns=1|3 error Driver StmtParamsMismatch 1 0|4 error Driver ConnectionClosed
judge 76 0 169 15 0 24";
