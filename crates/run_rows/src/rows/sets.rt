//! Queries: answers, sets of rows, streams.

pub const SETS: &str = "\
# answers: a row
>@ greeting head row_and_end
> conn|query 0 SELECT 1|next 0|next 0|next 0
<@ a_row
whole
judge 99 0 279 18 0 39

# answers: a read that fails in a set
>@ greeting head
> fail 0|packet 0 3 0131|conn|query 0 SELECT 1|next 0|next 0
<@ connected
< 2 ok|3 error Io Link|4 error Driver ConnectionClosed
<. sent 0
judge 74 0 165 14 3 24

# answers: an end in a set
>@ greeting head
> end 0|conn|query 0 SELECT 1|next 0|next 0
<@ connected
< 2 ok|3 error Io UnexpectedEof 4|4 error Driver ConnectionClosed
<. sent 0
judge 74 0 165 13 0 21

# answers: a hold in a set
>@ greeting head held
> packet 0 3 0131|conn|query 0 SELECT 1|next 0|next 0
<@ connected
< 2 ok|3 pending|4 refused NoSuchHandle
<. sent 0
judge 65 0 138 12 3 18

# answers: an empty packet in the place of a row
>@ greeting head
> packet 0 3 -|conn|query 0 SELECT 1|next 0|next 0
<@ connected
< 2 ok|3 error Io InvalidData 4|4 error Driver ConnectionClosed
<. sent 0
judge 74 0 167 15 0 27

# answers: more columns than a set can have
>@ greeting
> packet 0 1 feffffffffffffffff|conn|query 0 SELECT 1|next 0
<@ connected
< 2 error Io InvalidData 2|3 error Driver ConnectionClosed
<. sent 0
judge 55 0 97 9 0 12

# answers: a packet above the limit
$ script|plain,root,,1024,28800
>@ greeting
> bytes 0 00080001|conn|query 0 SELECT 1|next 0
<@ connected
< 2 error Io Codec TooLarge 2048 1024|3 error Driver ConnectionClosed
<. sent 0
judge 55 0 97 8 0 10

# answers: a packet out of order
>@ greeting
> packet 0 5 01|conn|query 0 SELECT 1|next 0
<@ connected
< 2 error Io Codec OutOfOrder 1 5|3 error Driver ConnectionClosed
<. sent 0
judge 55 0 99 9 0 12

# answers: queries without a connection
> query 0 SELECT 1|next 0
< 1 refused NoSuchHandle|2 refused NoSuchHandle|end
whole
judge 11 0 17 0 0 0

# answers: a sink that is full in the middle of a line
room 12
> query 0 SELECT 1|next 0
<. 1 refused No
status 5
whole

# answers: a connection that fails before any byte
> fail 0|conn
< 1 error Io Link
< sent 0 -|taken 0 -|end
whole
judge 20 0 20 2 0 2

# sets: two are gathered
>@ greeting two_sets
> conn|query 0 X|collect 0|collect 0|collect 0
<@ connected
< 2 ok|3 rows 2 [b:31 b:32] [b:33 b:34]|4 rows 1 [b:35 b:36]|5 rows 0
<@ sent x taken
judge 117 0 340 39 0 111

# sets: what is left is passed over
>@ greeting two_sets
> conn|query 0 X|next 0|drop 0|next 0
<@ connected
< 2 ok|3 row b:31 b:32|4 ok|5 none
<@ sent x taken
judge 98 0 276 39 0 117

# sets: an error behind an OK
>@ greeting ok_then_blabla ok
> conn|query 0 A|query 0 B|query 0 C|fields 0
<@ connected
< 2 ok|3 error Server 1064 42000 b:424c41424c41|4 ok|5 ok affected=0 insert=- warnings=0 status=2 info=b:
<@ sent
<. 020000000341
<. 020000000343
<@ taken
judge 87 0 223 15 0 33

# sets: an error, and no OK
>@ greeting err ok
> conn|query 0 X|fields 0|ping 0
<@ connected
< 2 error Server 1064 42000 b:58|3 ok -|4 ok
<@ sent x ping taken
judge 68 0 154 12 0 24

# sets: a row that is held, and cancelled
>@ greeting head
> bytes 0 0200|wait 0|bytes 0 00030131|conn|query 0 X|next 0|next 0|cancel 0|next 0|cancel 0
<@ connected
< 2 ok|3 pending|4 refused NoSuchHandle|5 ok|6 row b:31|7 refused NoSuchHandle
<@ sent x taken
judge 107 0 368 16 0 36

# sets: a query that is held while it is sent
>@ greeting
> accept 0 64|accept 0 6|wwait 0|conn|query 0 SELECT 1|cancel 0|query 0 SELECT 1
<@ connected
< 2 pending|3 ok|4 error Driver ConnectionClosed
<@ sent
<. 090000000353
<@ taken
judge 61 0 130 6 0 6

# sets: a query that fails while it is sent
>@ greeting
> accept 0 64|wfail 0|conn|query 0 SELECT 1|ping 0
<@ connected
< 2 error Io Link|3 error Driver ConnectionClosed
<@ sent taken
judge 55 0 98 8 0 10

# sets: quit
>@ greeting
> conn|quit 0|quit 0|ping 0
<@ connected
< 2 ok|3 ok|4 error Driver ConnectionClosed
<@ sent quit taken
judge 70 0 155 6 0 6

# sets: an empty packet
>@ greeting head
> packet 0 3 -|conn|query 0 X|next 0|ping 0
<@ connected
< 2 ok|3 error Io InvalidData 4|4 error Driver ConnectionClosed
<@ sent x taken
judge 74 0 168 15 0 27

# sets: a head that drips
>@ greeting
> drip 0 1 01|drip 0 2 036465660000000131000c3f0001000000088100000000|conn|query 0 X
>* 31 0 poll 0|
<@ connected
<* 31 2 %d 0; pending|
< 33 ok
<. sent 0
judge 442 0 7434 12 0 39

# sets: each byte of a response drips
>@ greeting
> drip 0 1 01|drip 0 2 036465660000000131000c3f0001000000088100000000|drip 0 3 0131|drip 0 4 fe000002000000
> conn|query 0 SELECT 1
>* 31 0 poll 0|
> next 0
>* 6 0 poll 0|
> next 0
>* 11 0 poll 0|
> next 0
<@ connected
<* 31 2 %d 0; pending|
< 33 ok
<* 6 34 %d 0; pending|
< 40 row b:31
<* 11 41 %d 0; pending|
< 52 end|53 none
<@ sent select_1 taken
judge 867 0 22430 18 0 276

# streams: the next set is an error
>@ greeting set_then_err
> conn|query 0 X|stream 0|unstream 0|stream 0|item 0
<@ connected
< 2 ok|3 ok|4 ok|5 error Server 1305 42000 b:464f4f|6 refused NoSuchHandle
<. sent 0
judge 99 0 304 21 0 63

# streams: two sets
>@ greeting first last
> conn|query 0 X|stream 0|item 0|item 0|item 0|item 0|unstream 0|stream 0|item 0|item 0|stream 0|item 0
<@ connected
< 2 ok|3 ok|4 row b:31|5 row b:32|6 end|7 none|8 ok|9 ok|10 row b:33|11 end|12 none
< 13 refused NoSuchHandle
<. sent 0
judge 260 0 1585 33 0 180

# streams: what is left is passed over
>@ greeting first last
> conn|query 0 X|stream 0|item 0|stream 0|item 0|stream 0|stream 0
<@ connected
< 2 ok|3 ok|4 row b:31|5 ok|6 row b:33|7 none|8 none
<. sent 0
judge 173 0 755 33 0 129

# streams: rows that are held, and polled
>@ greeting held_first last
> conn|query 0 X|stream 0|stream 0|item 0|poll 0|item 0|poll 0|item 0|poll 0|item 0
<@ connected
< 2 ok|3 ok|4 pending|5 refused NoSuchHandle|6 pending|7 refused NoSuchHandle|8 ok|9 row b:33|10 refused NoSuchHandle
< 11 end
<. sent 0
judge 195 0 1058 33 0 174

# streams: an item that is held, and a head that is cancelled
>@ greeting held_first last
> conn|query 0 X|stream 0|item 0|item 0|unstream 0|poll 0|item 0|stream 0|cancel 0|item 0|stream 0
<@ connected
< 2 ok|3 ok|4 row b:31|5 pending|6 refused NoSuchHandle|7 row b:32|8 end|9 pending|10 ok|11 refused NoSuchHandle
< 12 error Driver ConnectionClosed
<. sent 0
judge 223 0 1215 21 12 75

# streams: an item that is cancelled
>@ greeting held_first last
> conn|query 0 X|stream 0|item 0|item 0|cancel 0|item 0|stream 0|cancel 0|unstream 0|stream 0
<@ connected
< 2 ok|3 ok|4 row b:31|5 pending|6 ok|7 row b:32|8 pending|9 ok|10 refused NoSuchHandle
< 11 error Driver ConnectionClosed
<. sent 0
judge 204 0 1048 21 12 75

# streams: passing over that is cancelled
>@ greeting held_first last
> conn|query 0 X|stream 0|stream 0|cancel 0|item 0|stream 0|poll 0|item 0
<@ connected
< 2 ok|3 ok|4 pending|5 ok|6 refused NoSuchHandle|7 pending|8 ok|9 row b:33
<. sent 0
judge 160 0 763 30 3 147

# streams: other calls end one
>@ greeting first last ok
> conn|query 0 X|item 0|unstream 0|item 1|unstream 2|stream 3|stream 0|fields 0|item 0|next 0|item 0|stream 0|item 0
> ping 0|item 0|stream 0
<@ connected
< 2 ok|3 refused NoSuchHandle|4 refused NoSuchHandle|5 refused NoSuchHandle|6 refused NoSuchHandle
< 7 refused NoSuchHandle|8 ok|9 ok affected=0 insert=- warnings=0 status=2 info=b:|10 row b:31|11 row b:33
< 12 none|13 ok|14 end|15 ok|16 none|17 none
<. sent 0
judge 319 0 2641 36 0 300

# streams: one that is over, and let go
>@ greeting first last ok
> conn|query 0 X|stream 0|item 0|ping 0|item 0|item 0|unstream 0|item 0
<@ connected
< 2 ok|3 ok|4 row b:31|5 ok|6 none|7 none|8 ok|9 refused NoSuchHandle
<. sent 0
judge 138 0 518 36 0 135

# streams: other reads pass over the set
>@ greeting set
> conn|query 0 X|stream 0|next 0|collect 0
<@ connected
< 2 ok|3 ok|4 none|5 rows 0
<. sent 0
judge 100 0 290 18 0 42

# streams: the rows of the next set are gathered
>@ greeting first last
> conn|query 0 X|stream 0|item 0|unstream 0|collect 0|next 0
<@ connected
< 2 ok|3 ok|4 row b:31|5 ok|6 rows 1 [b:33]|7 none
<. sent 0
judge 140 0 545 33 0 138

# streams: the rows of the next set are gathered, once what is left was held
>@ greeting held_first last
> conn|query 0 X|stream 0|collect 0|poll 0|poll 0|item 0
<@ connected
< 2 ok|3 ok|4 pending|5 pending|6 rows 1 [b:33]|7 none
<. sent 0
judge 128 0 463 33 0 132

# streams: a row of the next set is read, once what is left was held
>@ greeting held_first last
> conn|query 0 X|stream 0|next 0|poll 0|poll 0|item 0
<@ connected
< 2 ok|3 ok|4 pending|5 pending|6 row b:33|7 none
<. sent 0
judge 124 0 439 30 3 114

# streams: a gathering that passes over the set is cancelled
>@ greeting held_first last
> conn|query 0 X|stream 0|collect 0|cancel 0|next 0|poll 0
<@ connected
< 2 ok|3 ok|4 pending|5 ok|6 pending|7 row b:33
<. sent 0
judge 127 0 488 30 3 129

# streams: the link fails in what is passed over
>@ greeting head
> packet 0 3 0131|fail 0|conn|query 0 X|stream 0|collect 0|item 0|unstream 0
<@ connected
< 2 ok|3 ok|4 error Io Link|5 none|6 ok
<. sent 0
judge 94 0 264 17 0 38

# streams: reads on a closed connection
>@ greeting set
> conn|query 0 X|stream 0|quit 0|next 0|collect 0|item 0|unstream 0
<@ connected
< 2 ok|3 ok|4 ok|5 error Driver ConnectionClosed|6 error Driver ConnectionClosed|7 none|8 ok
<. sent 0
judge 124 1 436 18 0 42

# streams: one without rows
>@ greeting ok
> conn|query 0 X|stream 0|item 0|quit 0|stream 0|item 0
<@ connected
< 2 ok|3 ok|4 end|5 ok|6 error Driver ConnectionClosed|7 refused NoSuchHandle
<. sent 0
judge 121 0 401 9 0 12

# sets: two sets of one query
>@ greeting two_sets
> conn|query 0 SELECT 1, 2 UNION ALL SELECT 3, 4; SELECT 5, 6;|collect 0|collect 0|collect 0
<@ connected
< 2 ok|3 rows 2 [b:31 b:32] [b:33 b:34]|4 rows 1 [b:35 b:36]|5 rows 0
<@ sent
<. 300000000353454c45435420312c203220554e494f4e20414c4c2053454c45435420332c20343b2053454c45435420352c20363b
<@ taken
judge 117 0 340 39 0 111

# sets: an error behind an OK closes nothing
>@ greeting ok_then_blabla ok
> conn|query 0 DO 1; BLABLA;|query 0 DO 1|query 0 DO 1|fields 0
<@ connected
< 2 ok|3 error Server 1064 42000 b:424c41424c41|4 ok|5 ok affected=0 insert=- warnings=0 status=2 info=b:
<@ sent
<. 0e00000003444f20313b20424c41424c413b
<@ do_1 taken
judge 87 0 223 15 0 33

# sets: each field of an OK
>@ greeting
> packet 0 1 000309ffff01006f6b|turn 0|conn|query 0 X|fields 0
<@ connected
< 2 ok|3 ok affected=3 insert=9 warnings=1 status=65535 info=b:6f6b
<@ sent x taken
judge 47 0 78 9 0 12

# sets: 300 rows, at which the packets' numbers go round
uncounted
>@ greeting head
>* 300 3 packet 0 %b 0; 0131|
> packet 0 47 fe000002000000|turn 0|conn|query 0 SELECT 1|collect 0
<@ connected
< 2 ok
<. 3 rows 300
<* 300 0  [b:31]
<
<@ sent select_1 taken

# sets: ten thousand rows
unjudged
room 1048576
>@ greeting head
>* 10000 3 packet 0 %b 0; 0131|
> packet 0 19 fe000002000000|conn|query 0 X|collect 0
<@ connected
< 2 ok
<. 3 rows 10000 [b:31] [b:31]

# sets: two connections
>@ greeting greeting_of_the_second err ok
> conn|conn|query 0 X|ping 1|ping 0
<@ connected
< 2 conn 1 id=7 version=8.0.36|3 error Server 1064 42000 b:58|4 ok|5 ok
<@ sent x ping taken
judge 100 0 276 21 0 53

# sets: a packet out of order, before two reads
>@ greeting
> packet 0 5 01|conn|query 0 SELECT 1|next 0|next 0
<@ connected
< 2 error Io Codec OutOfOrder 1 5|3 error Driver ConnectionClosed|4 error Driver ConnectionClosed
<@ sent select_1 taken
judge 68 1 148 9 0 12

# sets: an OK that drips
>@ greeting
> drip 0 1 00000002000000|conn|query 0 X
>* 10 0 poll 0|
> next 0|next 0
<@ connected
<* 10 2 %d 0; pending|
< 12 ok|13 end|14 none
<@ sent x taken
judge 226 0 1661 9 0 15

# sets: gathering that is held, and polled
>@ greeting head
> packet 0 3 0131|wait 0|packet 0 4 0132|packet 0 5 fe000002000000|conn|query 0 X|collect 0|poll 0|next 0
<@ connected
< 2 ok|3 pending|4 rows 2 [b:31] [b:32]|5 none
<@ sent x taken
judge 104 0 302 21 0 51

# streams: a set is passed over
>@ greeting two_sets
> conn|item 0|query 0 X|stream 0|item 0|unstream 0|stream 0|fields 0|item 0|item 0|item 0|stream 0
<@ connected
< 2 refused NoSuchHandle|3 ok|4 ok|5 row b:31 b:32|6 ok|7 ok|8 ok affected=0 insert=- warnings=0 status=10 info=b:
< 9 row b:35 b:36|10 end|11 none|12 none
<@ sent x taken
lost 7 5
judge 225 0 1313 39 0 210

# streams: passing over that is held, and polled
>@ greeting held_first last_without_turn
> conn|query 0 X|stream 0|stream 0|poll 0|poll 0|item 0|next 0|unstream 0
<@ connected
< 2 ok|3 ok|4 pending|5 pending|6 ok|7 row b:33|8 none|9 ok
<@ sent x taken
judge 171 0 792 33 0 141

# streams: a head that is cancelled closes
>@ greeting held_first last_without_turn
> conn|query 0 X|stream 0|item 0|item 0|cancel 0|item 0|stream 0|cancel 0|stream 0
<@ connected
< 2 ok|3 ok|4 row b:31|5 pending|6 ok|7 row b:32|8 pending|9 ok|10 error Driver ConnectionClosed
<@ sent x taken
judge 189 0 931 21 12 75

# streams: an error behind one without rows
>@ greeting ok_then_blabla ok
> conn|query 0 X|stream 0|item 0|unstream 1|stream 0|quit 0|stream 0
<@ connected
< 2 ok|3 ok|4 end|5 refused NoSuchHandle|6 error Server 1064 42000 b:424c41424c41|7 ok|8 error Driver ConnectionClosed
<@ sent x quit taken
judge 146 0 591 12 3 30

# streams: an error in the place of a set
>@ greeting set_then_err
> conn|query 0 SELECT 1; SELECT FOO(); SELECT 2|stream 0|unstream 0|stream 0
<@ connected
< 2 ok|3 ok|4 ok|5 error Server 1305 42000 b:464f4f
<@ sent
<. 210000000353454c45435420313b2053454c45435420464f4f28293b2053454c4543542032
<@ taken
judge 89 0 257 21 0 63";
