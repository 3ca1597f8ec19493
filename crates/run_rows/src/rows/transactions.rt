//! Transactions: the queries that are sent for them, what they answer, and which transactions are there. The queries are those
//! of the MySQL manual's pages "START TRANSACTION, COMMIT, and ROLLBACK Statements" and "SET TRANSACTION Statement"; MySQL can
//! be told that a transaction only reads from 5.6.5 on.

pub const TRANSACTIONS: &str = "\
# transactions: what begins one
>@ greeting began
> conn|begin 0
<@ connected
< 2 ok
<@ sent begin taken
judge 39 0 56 9 0 12

# transactions: what begins one
>@ greeting ok began
> conn|begin 0 level=0
<@ connected
< 2 ok
<@ sent read_uncommitted begin taken
judge 39 0 56 12 0 18

# transactions: what begins one
>@ greeting ok began
> conn|begin 0 level=1
<@ connected
< 2 ok
<@ sent read_committed begin taken
judge 39 0 56 12 0 18

# transactions: what begins one
>@ greeting ok began
> conn|begin 0 level=2
<@ connected
< 2 ok
<@ sent repeatable_read begin taken
judge 39 0 56 12 0 18

# transactions: what begins one
>@ greeting ok began
> conn|begin 0 level=3
<@ connected
< 2 ok
<@ sent serializable begin taken
judge 39 0 56 12 0 18

# transactions: what begins one
>@ greeting ok began
> conn|begin 0 ro
<@ connected
< 2 ok
<@ sent read_only begin taken
judge 39 0 56 12 0 18

# transactions: what begins one
>@ greeting ok began
> conn|begin 0 rw
<@ connected
< 2 ok
<@ sent read_write begin taken
judge 39 0 56 12 0 18

# transactions: what begins one
>@ greeting began
> conn|begin 0 snapshot
<@ connected
< 2 ok
<@ sent snapshot taken
judge 39 0 56 9 0 12

# transactions: what begins one
>@ greeting ok ok began
> conn|begin 0 ro snapshot level=3
<@ connected
< 2 ok
<@ sent serializable read_only snapshot taken
judge 39 0 56 15 0 24

# transactions: what begins one
>@ greeting ok ok began
> conn|begin 0 rw level=0 ro level=1 rw
<@ connected
< 2 ok
<@ sent read_committed read_write begin taken
judge 39 0 56 15 0 24

# transactions: one that is given up
>@ greeting began
> conn|begin 0|forget 0|query 0 SELECT 1|cancel 0|ping 0
<@ connected
< 2 ok|3 ok|4 pending|5 ok|6 error Driver ConnectionClosed
<@ sent begin rollback taken
judge 99 0 294 9 0 12

# transactions: one in another
>@ greeting began ok
> conn|begin 0|begin 0|ping 0
<@ connected
< 2 ok|3 error Driver NestedTransaction|4 ok
<@ sent begin ping taken
judge 77 0 183 12 0 24

# transactions: one in another
>@ greeting began ok
> conn|begin 0|begin 0 ro|rollback 0
<@ connected
< 2 ok|3 error Driver NestedTransaction|4 ok
<@ sent begin rollback taken
judge 77 0 183 12 0 24

# transactions: servers without READ ONLY
>@ greeting_5_6_4 ok
> conn|begin 0 ro|begin 0 rw|rollback 0|ping 0
< 1 conn 0 id=7 version=5.6.4|2 error Driver ReadOnlyTransNotSupported|3 error Driver ReadOnlyTransNotSupported
< 4 refused NoSuchHandle|5 ok
<@ sent ping taken
judge 88 1 243 9 0 21

# transactions: a level at a server without READ ONLY
>@ greeting_5_6_4 ok began
> conn|begin 0 level=2
< 1 conn 0 id=7 version=5.6.4|2 ok
<@ sent repeatable_read begin taken
judge 39 0 57 12 0 18

# transactions: one in another
>@ greeting_5_6_4 began
> conn|begin 0|begin 0 ro
< 1 conn 0 id=7 version=5.6.4|2 ok|3 error Driver NestedTransaction
<@ sent begin taken
judge 59 0 113 9 0 12

# transactions: the first server with READ ONLY
>@ greeting_5_6_5 ok began
> conn|begin 0 ro
< 1 conn 0 id=7 version=5.6.5|2 ok
<@ sent read_only begin taken
judge 39 0 57 12 0 18

# transactions: an error before they begin
>@ greeting err ok
> conn|begin 0 level=1 ro|rollback 0|ping 0
<@ connected
< 2 error Server 1064 42000 b:58|3 refused NoSuchHandle|4 ok
<@ sent read_committed ping taken
judge 67 0 151 12 0 24

# transactions: an error before they begin
>@ greeting ok err ok
> conn|begin 0 level=1 ro|forget 0|ping 0
<@ connected
< 2 error Server 1064 42000 b:58|3 refused NoSuchHandle|4 ok
<@ sent read_committed read_only ping taken
judge 67 0 149 15 0 30

# transactions: an error before they begin
>@ greeting ok ok err began
> conn|begin 0 level=1 ro|begin 0
<@ connected
< 2 error Server 1064 42000 b:58|3 ok
<@ sent read_committed read_only begin begin taken
judge 59 0 112 18 0 33

# transactions: a rollback of one that was given up
>@ greeting began err ok ok
> conn|begin 0|forget 0|ping 0|ping 0
<@ connected
< 2 ok|3 ok|4 error Server 1064 42000 b:58|5 ok
<@ sent begin rollback rollback ping taken
judge 95 0 272 18 0 54

# transactions: a rollback of one that was given up
>@ greeting began err ok began
> conn|begin 0|forget 0|begin 0|begin 0
<@ connected
< 2 ok|3 ok|4 error Server 1064 42000 b:58|5 ok
<@ sent begin rollback rollback begin taken
judge 95 0 272 18 0 54

# transactions: a rollback of one that was given up
>@ greeting began ok began
> conn|begin 0|forget 0|begin 0|forget 0
<@ connected
< 2 ok|3 ok|4 ok|5 ok
<@ sent begin rollback begin taken
judge 90 0 251 15 0 36

# transactions: rollback
>@ greeting began ok ok
> conn|begin 0|rollback 0|rollback 0|ping 0
<@ connected
< 2 ok|3 ok|4 refused NoSuchHandle|5 ok
<@ sent begin rollback ping taken
judge 82 0 217 15 0 38

# transactions: rollback
>@ greeting began err ok ok
> conn|begin 0|rollback 0|rollback 0|ping 0
<@ connected
< 2 ok|3 error Server 1064 42000 b:58|4 refused NoSuchHandle|5 ok
<@ sent begin rollback rollback ping taken
judge 86 0 230 18 0 51

# transactions: what is left of a set
>@ greeting began set ok
> conn|begin 0|query 0 SELECT 1|rollback 0|next 0
<@ connected
< 2 ok|3 ok|4 ok|5 none
<@ sent begin select_1 rollback taken
judge 93 0 260 24 0 66

# transactions: what is left of a set
>@ greeting began set ok
> conn|begin 0|query 0 SELECT 1|stream 0|rollback 0|item 0
<@ connected
< 2 ok|3 ok|4 ok|5 ok|6 none
<@ sent begin select_1 rollback taken
judge 100 0 302 24 0 75

# transactions: what is left of a set
>@ greeting began set ok ok
> conn|begin 0|query 0 SELECT 1|forget 0|next 0|next 0|ping 0
<@ connected
< 2 ok|3 ok|4 ok|5 row b:31|6 end|7 ok
<@ sent begin select_1 rollback ping taken
judge 136 0 525 27 0 105

# transactions: what is left of a set
>@ greeting began err
> conn|begin 0|query 0 DO|forget 0
<@ connected
< 2 ok|3 error Server 1064 42000 b:58|4 ok
<@ sent begin do taken
judge 77 0 179 12 0 21

# transactions: held, and cancelled
>@ greeting held
> conn|begin 0 ro|cancel 0|ping 0
<@ connected
< 2 pending|3 ok|4 error Driver ConnectionClosed
<@ sent read_only taken
judge 61 0 130 6 0 6

# transactions: held, and cancelled
>@ greeting ok held
> conn|begin 0 ro|cancel 0|forget 0
<@ connected
< 2 pending|3 ok|4 refused NoSuchHandle
<@ sent read_only begin taken
judge 54 0 107 9 0 12

# transactions: held, and cancelled
>@ greeting began ok held
> conn|begin 0|forget 0|begin 0|cancel 0|begin 0
<@ connected
< 2 ok|3 ok|4 pending|5 ok|6 error Driver ConnectionClosed
<@ sent begin rollback begin taken
judge 99 0 298 12 0 24

# transactions: held, and cancelled
>@ greeting began held
> conn|begin 0|forget 0|begin 0|cancel 0|ping 0
<@ connected
< 2 ok|3 ok|4 pending|5 ok|6 error Driver ConnectionClosed
<@ sent begin rollback taken
judge 99 0 294 9 0 12

# transactions: held, and cancelled
>@ greeting held_set
> conn|query 0 SELECT 1|begin 0|cancel 0|ping 0
<@ connected
< 2 ok|3 pending|4 ok|5 error Driver ConnectionClosed
<@ sent select_1 taken
judge 80 0 204 15 3 27

# transactions: held, and cancelled
>@ greeting held began ok
> conn|begin 0|rollback 0|poll 0|rollback 0
<@ connected
< 2 pending|3 refused NoSuchHandle|4 ok|5 ok
<@ sent begin rollback taken
judge 79 0 223 12 0 33

# transactions: held, and cancelled
>@ greeting began held_set ok
> conn|begin 0|query 0 SELECT 1|begin 0|poll 0|rollback 0
<@ connected
< 2 ok|3 ok|4 pending|5 error Driver NestedTransaction|6 ok
<@ sent begin select_1 rollback taken
judge 111 0 368 24 0 75

# transactions: held, and cancelled
>@ greeting began held_set
> conn|begin 0|query 0 SELECT 1|begin 0|cancel 0|rollback 0|rollback 0
<@ connected
< 2 ok|3 ok|4 pending|5 ok|6 error Driver ConnectionClosed|7 refused NoSuchHandle
<@ sent begin select_1 taken
judge 110 0 352 18 3 42

# transactions: held, and cancelled
>@ greeting began held ok
> conn|begin 0|rollback 0|poll 0|rollback 0
<@ connected
< 2 ok|3 pending|4 ok|5 refused NoSuchHandle
<@ sent begin rollback taken
judge 79 0 198 12 0 24

# transactions: held, and cancelled
>@ greeting began held
> conn|begin 0|rollback 0|cancel 0|rollback 0|rollback 0
<@ connected
< 2 ok|3 pending|4 ok|5 error Driver ConnectionClosed|6 refused NoSuchHandle
<@ sent begin rollback taken
judge 90 0 249 9 0 12

# transactions: held, and cancelled
>@ greeting began held
> conn|begin 0|rollback 0|cancel 0|forget 0|forget 0
<@ connected
< 2 ok|3 pending|4 ok|5 ok|6 refused NoSuchHandle
<@ sent begin rollback taken
judge 92 0 263 9 0 12

# transactions: held, and cancelled
>@ greeting began held ok ok
> conn|begin 0|ping 0|begin 0|rollback 0|forget 0|poll 0|rollback 0
<@ connected
< 2 ok|3 pending|4 refused NoSuchHandle|5 refused NoSuchHandle|6 refused NoSuchHandle|7 ok|8 ok
<@ sent begin ping rollback taken
judge 118 0 468 15 0 58

# transactions: none is there
>@ greeting ok
> conn|rollback 0|forget 0|rollback 1|begin 1|ping 0
<@ connected
< 2 refused NoSuchHandle|3 refused NoSuchHandle|4 refused NoSuchHandle|5 refused NoSuchHandle|6 ok
<@ sent ping taken
judge 67 0 212 9 0 24

# transactions: quit
>@ greeting began
> conn|begin 0|quit 0|forget 0|begin 0
<@ connected
< 2 ok|3 ok|4 ok|5 error Driver ConnectionClosed
<@ sent begin quit taken
judge 89 0 237 9 0 12

# transactions: quit
>@ greeting began ok
> conn|begin 0|forget 0|quit 0
<@ connected
< 2 ok|3 ok|4 ok
<@ sent begin rollback quit taken
judge 73 0 172 12 0 24

# transactions: a reset
>@ greeting began ok ok
> conn|begin 0|reset 0|begin 0|rollback 0
<@ connected
< 2 ok|3 flag 1|4 error Driver NestedTransaction|5 ok
<@ sent begin reset rollback taken
judge 101 0 288 15 0 38

# commits: one
>@ greeting began ok ok
> conn|begin 0|commit 0|commit 0|ping 0
<@ connected
< 2 ok|3 ok|4 refused NoSuchHandle|5 ok
<@ sent begin commit ping taken
judge 82 0 217 15 0 38

# commits: an error
>@ greeting began err ok ok
> conn|begin 0|commit 0|rollback 0|ping 0
<@ connected
< 2 ok|3 error Server 1064 42000 b:58|4 refused NoSuchHandle|5 ok
<@ sent begin commit rollback ping taken
judge 86 0 228 18 0 47

# commits: an error
>@ greeting began err other_err ok ok
> conn|begin 0|commit 0|commit 0|ping 0
<@ connected
< 2 ok|3 error Server 1064 42000 b:58|4 refused NoSuchHandle|5 ok
<@ sent begin commit rollback rollback ping taken
judge 86 0 230 21 0 60

# commits: an error
>@ greeting began err other_err ok began
> conn|begin 0|commit 0|begin 0
<@ connected
< 2 ok|3 error Server 1064 42000 b:58|4 ok
<@ sent begin commit rollback rollback begin taken
judge 77 0 182 21 0 54

# commits: an error
>@ greeting began err
> fail 0|conn|begin 0|commit 0|ping 0
<@ connected
< 2 ok|3 error Io Link|4 error Driver ConnectionClosed
<@ sent begin commit rollback taken
judge 74 0 166 14 0 27

# commits: a link that fails
>@ greeting began
> fail 0|conn|begin 0|commit 0|ping 0
<@ connected
< 2 ok|3 error Io Link|4 error Driver ConnectionClosed
<@ sent begin commit taken
judge 74 0 165 11 0 18

# commits: an error of what is left
>@ greeting began ok_then_err ok ok
> conn|begin 0|query 0 DO 1;DO 2|commit 0|ping 0
<@ connected
< 2 ok|3 ok|4 error Server 1064 42000 b:58|5 ok
<@ sent begin do_1_do_2 rollback ping taken
judge 95 0 268 21 0 61

# commits: an error of what is left
>@ greeting began ok_then_err held
> conn|begin 0|query 0 DO 1;DO 2|commit 0|cancel 0|forget 0
<@ connected
< 2 ok|3 ok|4 pending|5 ok|6 ok
<@ sent begin do_1_do_2 rollback taken
judge 100 0 309 15 0 33

# commits: what is left of a set
>@ greeting began set ok
> conn|begin 0|query 0 SELECT 1|commit 0|next 0
<@ connected
< 2 ok|3 ok|4 ok|5 none
<@ sent begin select_1 commit taken
judge 93 0 260 24 0 66

# commits: held, and cancelled
>@ greeting began held ok
> conn|begin 0|commit 0|rollback 0|poll 0|commit 0
<@ connected
< 2 ok|3 pending|4 refused NoSuchHandle|5 ok|6 refused NoSuchHandle
<@ sent begin commit taken
judge 88 0 252 12 0 27

# commits: held, and cancelled
>@ greeting began err held ok ok
> conn|begin 0|commit 0|poll 0|ping 0
<@ connected
< 2 ok|3 pending|4 error Server 1064 42000 b:58|5 ok
<@ sent begin commit rollback ping taken
judge 92 0 260 18 0 49

# commits: held, and cancelled
>@ greeting began held
> conn|begin 0|commit 0|cancel 0|commit 0|forget 0
<@ connected
< 2 ok|3 pending|4 ok|5 error Driver ConnectionClosed|6 refused NoSuchHandle
<@ sent begin commit taken
judge 90 0 249 9 0 12

# commits: held, and cancelled
>@ greeting began err held
> conn|begin 0|commit 0|cancel 0|forget 0
<@ connected
< 2 ok|3 pending|4 ok|5 ok
<@ sent begin commit rollback taken
judge 82 0 218 12 0 21

# commits: held, and cancelled
>@ greeting began held_set
> conn|begin 0|query 0 SELECT 1|commit 0|cancel 0|commit 0|commit 0
<@ connected
< 2 ok|3 ok|4 pending|5 ok|6 error Driver ConnectionClosed|7 refused NoSuchHandle
<@ sent begin select_1 taken
judge 110 0 353 18 3 42

# commits: none is there
>@ greeting ok
> conn|commit 0|ping 0
<@ connected
< 2 refused NoSuchHandle|3 ok
<@ sent ping taken
judge 46 0 86 9 0 15

# commits: quit
>@ greeting began ok
> conn|begin 0|quit 0|commit 0
<@ connected
< 2 ok|3 ok|4 error Driver ConnectionClosed
<@ sent begin quit taken
judge 71 0 156 9 3 12

# transactions: one that is given up, whose rollback is tried twice
>@ greeting ok err ok ok
> conn|begin 0|forget 0|ping 0|ping 0|forget 0
<@ connected
< 2 ok|3 ok|4 error Server 1064 42000 b:58|5 ok|6 refused NoSuchHandle
<@ sent begin rollback rollback ping taken
judge 105 0 318 18 0 54

# transactions: one that is set up whole, and another one in it
>@ greeting ok ok ok ok ok
> conn|begin 0 level=1 ro snapshot|begin 0|rollback 0|rollback 0|ping 0
<@ connected
< 2 ok|3 error Driver NestedTransaction|4 ok|5 refused NoSuchHandle|6 ok
<@ sent read_committed read_only snapshot rollback ping taken
other 2 begin 0 level=3 ro snapshot
other 2 begin 0 level=1 rw snapshot
other 2 begin 0 level=1 ro
other 4 forget 0
judge 105 0 326 21 0 68

# transactions: a server that is too old
>@ greeting_5_6_4 ok ok
> conn|begin 0 ro|begin 0|forget 0|quit 0|forget 0
< 1 conn 0 id=7 version=5.6.4|2 error Driver ReadOnlyTransNotSupported|3 ok|4 ok|5 ok|6 refused NoSuchHandle
<@ sent begin rollback quit taken
judge 105 0 317 12 0 32

# transactions: one that is held and polled, and whose end is cancelled
>@ greeting held ok held
> conn|begin 0|rollback 0|poll 0|rollback 0|cancel 0|ping 0
<@ connected
< 2 pending|3 refused NoSuchHandle|4 ok|5 pending|6 ok|7 error Driver ConnectionClosed
<@ sent begin rollback taken
judge 106 0 372 9 0 18

# commits: one that is answered, and none afterwards
>@ greeting ok ok ok ok
> conn|begin 0|query 0 DO 1|commit 0|commit 0|ping 0
<@ connected
< 2 ok|3 ok|4 ok|5 refused NoSuchHandle|6 ok
<@ sent begin do_1 commit ping taken
judge 100 0 308 18 0 60

# commits: an error of one, and of its rollback
>@ greeting ok err ok ok err
> packet 0 1 ffbd0423343030303159|turn 0
>@ ok ok
> conn|begin 0|commit 0|begin 0|commit 0|ping 0
<@ connected
< 2 ok|3 error Server 1064 42000 b:58|4 ok|5 error Server 1064 42000 b:58|6 ok
<@ sent begin commit rollback begin commit rollback rollback ping taken
judge 117 1 384 30 0 109

# commits: one that is held, and polled
>@ greeting ok ok held ok held
> conn|begin 0|query 0 DO 1|commit 0|poll 0|commit 0
<@ connected
< 2 ok|3 ok|4 pending|5 ok|6 refused NoSuchHandle
<@ sent begin do_1 commit taken
judge 98 0 288 15 0 41";
