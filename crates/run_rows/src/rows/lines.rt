//! Scripts, a line each in which `|` parts lines, and the number of their first line that does not read; 0 where all read.

pub const LINES: &str = "\
0 drip 0 0 -|accept 65535 3|wwait 0|wfail 0|conn
0 collect 0|stream 0|item 0|unstream 0|drop 0|ping 0|reset 0|begin 0|begin 0 snapshot ro level=3 rw level=0 level=01|commit 0|rollback 0|forget 0|quit 0|fields 0|poll 0|cancel 0
0 query 0 A|query 0 B|conn|conn
1 drip 0 0
1 packet 0 0 
1 packet 0 0 0
1 bytes 0 -
1 bytes 0 0g
1 accept 65536 3
1 accept 0
1 accept 0 3 4
2 wwait 0|wfail
1 collect
1 stream
2 item 0|unstream 0 1
2 ping 0|wwait 0
1 cancel 0 1
1 reset
1 reset 0 1
1 begin
1 begin x
1 begin 0 
1 begin 0 ro  rw
1 begin 0 rx
1 begin 0 ro=1
1 begin 0 level
1 begin 0 level=
1 begin 0 level=4
1 begin 0 levels=1
1 commit
1 commit 0 0
1 rollback
1 rollback 0 ro
1 forget
1 forget 0 0
1 prep 0
1 prep x DO 1
1 exec 0
1 exec 0 0 
1 exec 0 x
1 exec 0 0  NULL
1 exec 0 0 NULL 
1 exec 0 0 null
1 exec 0 0 b:0
1 exec 0 0 b:-
1 exec 0 0 b
1 exec 0 0 i:
1 exec 0 0 i:-
1 exec 0 0 i:+1
1 exec 0 0 i:9223372036854775808
1 exec 0 0 i:-9223372036854775809
1 exec 0 0 u:-1
1 exec 0 0 u:18446744073709551616
1 exec 0 0 f:3f8000
1 exec 0 0 d:3f800000
1 exec 0 0 D:2026-11-29
1 exec 0 0 D:2026-11-29 3:35:0.0
1 exec 0 0 D:65536-11-29_3:35:0.0
1 exec 0 0 D:2026-11-29_3:35:0
1 exec 0 0 D:2026-11-29_3:35:256.0
1 exec 0 0 T:2_1_2:3:4.5
1 exec 0 0 T:-1_2:3:4.5
1 exec 0 0 T:0_4294967296_2:3:4.5
1 exec 0 0 foo=NULL
1 execn 0 0 NULL
1 execn 0 0 =NULL
1 execn 0 0 foo
1 execn 0 0 foo==NULL
1 closestmt 0
1 closestmt 0 0 0
1 closestmt 0 0 
0 prep 0 DO ?, :a|prep 0 |closestmt 0 18446744073709551615";
