//! Resets and changes of user. The values are those of the pages "COM_RESET_CONNECTION" and "COM_CHANGE_USER" of the MySQL
//! internals; MySQL has the reset from 5.7.3 on, MariaDB from 10.2.4 on. A scramble is `SHA1(password) XOR SHA1(nonce,
//! SHA1(SHA1(password)))`.

pub const SESSIONS: &str = "\
# resets: one
>@ greeting ok
> conn|reset 0
<@ connected
< 2 flag 1
<@ sent reset taken
judge 43 0 64 9 0 12

# resets: MySQL 5.7.2
>@ greeting_5_7_2
> conn|reset 0
<@ connected_5_7_2
< 2 flag 0
<@ sent taken
judge 43 0 63 6 0 6

# resets: MySQL 5.7.3
>@ greeting_5_7_3 ok
> conn|reset 0
< 1 conn 0 id=7 version=5.7.3|2 flag 1
<@ sent reset taken
judge 43 0 65 9 0 12

# resets: MariaDB 10.2.3 and 10.2.4
> packet 0 0 0a352e352e352d31302e322e332d4d61726961444200070000006162636465666768008ba22d02001f011500000000000000000000696a6b6c6d6e6f7071727374006d7973716c5f6e61746976655f70617373776f726400
>@ turn
> packet 0 2 00000002000000
>@ turn
> packet 1 0 0a352e352e352d31302e322e342d4d61726961444200070000006162636465666768008ba22d02001f011500000000000000000000696a6b6c6d6e6f7071727374006d7973716c5f6e61746976655f70617373776f726400
> turn 1|packet 1 2 00000002000000|turn 1|packet 1 1 00000002000000|turn 1|conn|conn|reset 0|reset 1
< 1 conn 0 id=7 version=10.2.3|2 conn 1 id=7 version=10.2.4|3 flag 0|4 flag 1
<@ sent taken
judge 86 0 208 15 0 30

# resets: one that is refused
>@ greeting blabla ok
> conn|reset 0|ping 0
<@ connected
< 2 error Server 1064 42000 b:424c41424c41|3 ok
<@ sent reset ping taken
judge 59 0 111 12 0 21

# resets: one that is held, and polled
>@ greeting held ok
> conn|reset 0|reset 0|poll 0
<@ connected
< 2 pending|3 refused NoSuchHandle|4 flag 1
<@ sent reset taken
judge 64 0 154 9 0 18

# resets: one that is held, and cancelled
>@ greeting held ok
> conn|reset 0|cancel 0|ping 0|reset 0
<@ connected
< 2 pending|3 ok|4 error Driver ConnectionClosed|5 error Driver ConnectionClosed
<@ sent reset taken
judge 76 1 196 6 3 6

# resets: no connection, and a closed one
>@ greeting
> reset 0|conn|reset 1|quit 0|reset 0
< 1 refused NoSuchHandle|2 conn 0 id=7 version=8.0.36|3 refused NoSuchHandle|4 ok|5 error Driver ConnectionClosed
<@ sent quit taken
judge 69 0 204 6 0 12

# resets: what is left of a set is read first
>@ greeting set
> packet 0 1 00000002000100
>@ turn
> conn|query 0 SELECT 1|stream 0|reset 0|item 0|next 0|fields 0
<@ connected
< 2 ok|3 ok|4 flag 1|5 none|6 none|7 ok affected=0 insert=- warnings=1 status=2 info=b:
<@ sent select_1 reset taken
judge 120 0 400 21 0 54

# resets: a set is left at a server without the command
>@ greeting_5_7_2 set
> conn|query 0 SELECT 1|reset 0|next 0|next 0
<@ connected_5_7_2
< 2 ok|3 flag 0|4 row b:31|5 end
<@ sent select_1 taken
judge 103 0 302 18 0 45

# resets: an error of the set that is left
>@ greeting set_then_err ok
> conn|query 0 X|reset 0|reset 0
<@ connected
< 2 ok|3 error Server 1305 42000 b:464f4f|4 flag 1
<@ sent x reset taken
judge 82 0 202 24 0 57

# resets: no statement is cached afterwards
>@ greeting prepared ok prepared
> conn|prep 0 DO 1|reset 0|prep 0 DO 1
<@ connected
< 2 stmt 0 id=1 params=0 columns=0|3 flag 1|4 stmt 1 id=1 params=0 columns=0
<@ sent prepare_1 reset prepare_1 taken
judge 83 1 201 15 0 33

# resets: statements are cached after a refusal
>@ greeting prepared blabla ok
> conn|prep 0 DO 1|reset 0|prep 0 DO 1|ping 0
<@ connected
< 2 stmt 0 id=1 params=0 columns=0|3 error Server 1064 42000 b:424c41424c41|4 stmt 1 id=1 params=0 columns=0|5 ok
<@ sent prepare_1 reset ping taken
judge 101 1 288 15 0 36

# resets: statements are cached at a server without the command
>@ greeting_5_7_2 prepared
> conn|prep 0 DO 1|reset 0|prep 0 DO 1
<@ connected_5_7_2
< 2 stmt 0 id=1 params=0 columns=0|3 flag 0|4 stmt 1 id=1 params=0 columns=0
<@ sent prepare_1 taken
judge 83 1 198 9 0 12

# resets: a statement that the server forgot
>@ greeting prepared ok
> packet 0 1 ffdb04234859303030424c41
>@ turn
> conn|prep 0 DO 1|reset 0|exec 0 0
<@ connected
< 2 stmt 0 id=1 params=0 columns=0|3 flag 1|4 error Server 1243 HY000 b:424c41
<@ sent prepare_1 reset execute_1 taken
judge 84 0 203 15 0 33

# users: one
>@ greeting ok
> conn|user 0 bob - =
<@ connected
< 2 ok
<@ sent bob taken
judge 39 0 56 9 0 12

# users: parts that stay, change and go
>@ greeting blabla ok ok
> conn|user 0 bob secret =|user 0 = = app|user 0 - - -
<@ connected
< 2 error Server 1064 42000 b:424c41424c41|3 ok|4 ok
<@ sent
<. 3300000011626f6200148817c50fa779daef010ee7577825b0847df9842e002d006d7973716c5f6e61746976655f70617373776f726400
<. 3600000011626f6200148817c50fa779daef010ee7577825b0847df9842e617070002d006d7973716c5f6e61746976655f70617373776f726400
<. 1c000000110000002d006d7973716c5f6e61746976655f70617373776f726400
<@ taken
judge 77 0 178 15 0 34

# users: what is left of a set is read first
>@ greeting prepared head held row_and_end turn ok prepared
> conn|prep 0 DO 1|query 0 SELECT 1|user 0 bob - -|poll 0|next 0|prep 0 DO 1
<@ connected
< 2 stmt 0 id=1 params=0 columns=0|3 ok|4 pending|5 ok|6 none|7 stmt 1 id=1 params=0 columns=0
<@ sent prepare_1 select_1 bob prepare_1 taken
judge 136 1 521 27 0 96

# users: one that is cancelled
>@ greeting held ok
> conn|user 0 bob - -|cancel 0|user 0 bob - -|user 1 bob - -
<@ connected
< 2 pending|3 ok|4 error Driver ConnectionClosed|5 refused NoSuchHandle
<@ sent bob taken
judge 70 0 166 6 3 6

# users: another plugin
>@ greeting
> packet 0 1 fe6100
>@ turn
> conn|user 0 bob - -|ping 0
<@ connected
< 2 error Driver UnknownAuthPlugin b:61|3 error Driver ConnectionClosed
<@ sent bob taken
judge 55 0 97 9 0 12

# resets: a statement is prepared again
>@ greeting prepared ok prepared ok
> conn|prep 0 DO 1|reset 0|prep 0 DO 1|ping 0
<@ connected
< 2 stmt 0 id=1 params=0 columns=0|3 flag 1|4 stmt 1 id=1 params=0 columns=0|5 ok
<@ sent prepare_1 reset prepare_1 ping taken
judge 103 1 293 18 0 48

# resets: an older server is not asked
>@ greeting_5_7_2 head row_and_end
> conn|query 0 SELECT 1|reset 0|next 0|next 0
<@ connected_5_7_2
< 2 ok|3 flag 0|4 row b:31|5 end
<@ sent select_1 taken
judge 103 0 302 18 0 45

# resets: one that is held and polled, and one that is cancelled
>@ greeting held ok held
> conn|reset 0|poll 0|reset 0|cancel 0|ping 0
<@ connected
< 2 pending|3 flag 1|4 pending|5 ok|6 error Driver ConnectionClosed
<@ sent reset reset taken
judge 100 0 302 9 0 15

# users: a statement is prepared again
>@ greeting prepared ok prepared ok
> conn|prep 0 DO 1|user 0 bob - -|prep 0 DO 1|ping 0
<@ connected
< 2 stmt 0 id=1 params=0 columns=0|3 ok|4 stmt 1 id=1 params=0 columns=0|5 ok
<@ sent prepare_1 bob prepare_1 ping taken
other 3 user 0 bo = =
other 3 user 0 bob pw =
other 3 user 0 bob = app
judge 98 1 278 18 0 48

# users: one that is held and polled, and one that is cancelled
>@ greeting held ok held
> conn|user 0 bob pw =|poll 0|user 0 = = app|cancel 0|ping 0
<@ connected
< 2 pending|3 ok|4 pending|5 ok|6 error Driver ConnectionClosed
judge 95 0 287 9 0 15";
