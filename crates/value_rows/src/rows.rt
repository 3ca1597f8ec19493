//! Rows about values, parameters and statements. A line that begins with `# ` says what the rows below it are about.

/// A row in each line; `crate::play` says which words there are.
pub const VALUES: &str = "\
# cells of the binary protocol: type, flags, one column, payload
binary 1 0 1 0000ff -> int -1
binary 1 32 1 0000ff -> int 255
binary 1 0 1 000080 -> int -128
binary 1 0 1 00007f -> int 127
binary 1 0 1 0000 -> no row: malformed
binary 1 0 1 00000102 -> no row: malformed
binary 2 0 1 00000080 -> int -32768
binary 2 32 1 0000ffff -> int 65535
binary 2 0 1 000001 -> no row: malformed
binary 13 32 1 0000e507 -> int 2021
binary 3 0 1 000000000080 -> int -2147483648
binary 3 32 1 0000ffffffff -> int 4294967295
binary 9 0 1 0000ffffffff -> int -1
binary 8 0 1 0000ffffffffffffffff -> int -1
binary 8 32 1 0000ffffffffffffffff -> uint 18446744073709551615
binary 8 0 1 00000000000000000080 -> int -9223372036854775808
binary 8 0 1 000000000000000000 -> no row: malformed
binary 4 0 1 00000000803f -> float 0x3f800000
binary 5 0 1 0000000000000000f03f -> double 0x3ff0000000000000
binary 10 0 1 000000 -> 0000-00-00 00:00:00.000000
binary 10 0 1 000004e4070c1f -> 2020-12-31 00:00:00.000000
binary 12 0 1 000007e4070c1f173b3a -> 2020-12-31 23:59:58.000000
binary 7 0 1 00000be4070c1f173b3a40420f00 -> 2020-12-31 23:59:58.1000000
binary 10 0 1 000005e4070c1f00 -> no row: malformed
binary 10 0 1 000004e4070c -> no row: malformed
binary 10 0 1 000004e4070c1f00 -> no row: malformed
binary 11 0 1 000000 -> 0 00:00:00.000000
binary 11 0 1 0000080122000000163b3a -> -34 22:59:58.000000
binary 11 0 1 00000c0001010000163b3a01000001 -> 257 22:59:58.16777217
binary 11 0 1 0000080222000000163b3a -> no row: malformed
binary 11 0 1 0000090022000000163b3a00 -> no row: malformed
binary 6 0 1 0000 -> NULL
binary 14 0 1 000004e4070c1f -> no row: malformed
binary 17 0 1 000000 -> no row: malformed
binary 241 0 1 00000131 -> no row: malformed
binary 243 0 1 00000131 -> no row: malformed
binary 244 0 1 00000131 -> no row: malformed
binary 6 0 1 000000 -> no row: malformed
binary 0 0 1 000003312e35 -> bytes 312e35
binary 15 0 1 00000131 -> bytes 31
binary 16 0 1 00000101 -> bytes 01
binary 242 0 1 00000131 -> bytes 31
binary 245 0 1 0000027b7d -> bytes 7b7d
binary 246 0 1 00000131 -> bytes 31
binary 247 0 1 00000131 -> bytes 31
binary 248 0 1 00000131 -> bytes 31
binary 249 0 1 00000131 -> bytes 31
binary 250 0 1 00000131 -> bytes 31
binary 251 0 1 00000131 -> bytes 31
binary 252 0 1 00000131 -> bytes 31
binary 253 0 1 000000 -> bytes\x20
binary 253 0 1 0000fc010031 -> bytes 31
binary 253 0 1 00000231 -> no row: malformed
binary 253 0 1 0000fb -> no row: malformed
binary 254 0 1 00000131 -> bytes 31
binary 255 0 1 00000131 -> bytes 31
# rows of seven cells of the binary protocol: the bits of the cells begin at the third bit of the bitmap
binary 1 0 7 0008010103040506 -> int 1, NULL, int 3, int 4, int 5, int 6, NULL
binary 1 0 7  -> no row: malformed
binary 1 0 7 00 -> no row: malformed
binary 1 0 7 0008 -> no row: malformed
binary 1 0 7 0108010103040506 -> no row: malformed
# rows of two cells of the text protocol
text 253 0 2 01310132 -> bytes 31, bytes 32
text 253 0 2 fb00 -> NULL, bytes\x20
text 253 0 2 fc010031fb -> bytes 31, NULL
text 253 0 2 0131 -> no row: malformed
text 253 0 2 0131013200 -> no row: malformed
text 253 0 2 0131ff -> no row: malformed
text 253 0 2 01310232 -> no row: malformed
text 253 0 2  -> no row: malformed
# a cell is taken out of a row: rows compare by their cells, and a copy of each kind of value is the same
taken 2 text 1, text 2 -> none is taken as none and leaves the same (bytes 31, bytes 32)
taken 1 text 1, text 2 -> bytes 32 is taken as bytes 32 and leaves (bytes 31, NULL)
taken 11 int -1, uint 1, date 0 0 0 0 0 0 0, date 2020 12 31 0 0 0 0, date 0 0 0 0 0 1 0, time 1 0 0 0 0 0, time 0 0 0 0 0 1, NULL, float 2, double 3, text ab -> none is taken as none and leaves the same (int -1, uint 1, 0000-00-00 00:00:00.000000, 2020-12-31 00:00:00.000000, 0000-00-00 00:00:01.000000, -0 00:00:00.000000, 0 00:00:00.000001, NULL, float 0x00000002, double 0x0000000000000003, bytes 6162)
# texts as numbers of one byte: a sign or none, and decimal digits
as u8 text 0 -> 0 | 0
as u8 text 255 -> 255 | 255
as u8 text 256 -> the value doesn't convert: 256: bytes 323536 | the row doesn't convert: (256): (bytes 323536)
as u8 text -0 -> 0 | 0
as u8 text -1 -> the value doesn't convert: -1: bytes 2d31 | the row doesn't convert: (-1): (bytes 2d31)
as u8 text +7 -> 7 | 7
as u8 text 0000000000000000000000000000000000000000000000007 -> 7 | 7
as u8 bytes  -> the value doesn't convert: : bytes  | the row doesn't convert: (): (bytes )
as u8 text + -> the value doesn't convert: +: bytes 2b | the row doesn't convert: (+): (bytes 2b)
as u8 text -+1 -> the value doesn't convert: -+1: bytes 2d2b31 | the row doesn't convert: (-+1): (bytes 2d2b31)
as u8 text 1a -> the value doesn't convert: 1a: bytes 3161 | the row doesn't convert: (1a): (bytes 3161)
as u8 text  1 -> the value doesn't convert:  1: bytes 2031 | the row doesn't convert: ( 1): (bytes 2031)
as u8 bytes ff -> the value doesn't convert: \u{fffd}: bytes ff | the row doesn't convert: (\u{fffd}): (bytes ff)
# the last text that fits each type, and the first that does not
as i8 text -128 -> -128 | -128
as i8 text -129 -> the value doesn't convert: -129: bytes 2d313239 | the row doesn't convert: (-129): (bytes 2d313239)
as i8 text 127 -> 127 | 127
as i8 text 128 -> the value doesn't convert: 128: bytes 313238 | the row doesn't convert: (128): (bytes 313238)
as u16 text 65535 -> 65535 | 65535
as u16 text 65536 -> the value doesn't convert: 65536: bytes 3635353336 | the row doesn't convert: (65536): (bytes 3635353336)
as i16 text -32768 -> -32768 | -32768
as i16 text -32769 -> the value doesn't convert: -32769: bytes 2d3332373639 | the row doesn't convert: (-32769): (bytes 2d3332373639)
as u32 text 4294967295 -> 4294967295 | 4294967295
as u32 text 4294967296 -> the value doesn't convert: 4294967296: bytes 34323934393637323936 | the row doesn't convert: (4294967296): (bytes 34323934393637323936)
as i32 text -2147483648 -> -2147483648 | -2147483648
as i32 text 2147483648 -> the value doesn't convert: 2147483648: bytes 32313437343833363438 | the row doesn't convert: (2147483648): (bytes 32313437343833363438)
as u64 text 18446744073709551615 -> 18446744073709551615 | 18446744073709551615
as u64 text 18446744073709551616 -> the value doesn't convert: 18446744073709551616: bytes 3138343436373434303733373039353531363136 | the row doesn't convert: (18446744073709551616): (bytes 3138343436373434303733373039353531363136)
as i64 text -9223372036854775808 -> -9223372036854775808 | -9223372036854775808
as i64 text 9223372036854775808 -> the value doesn't convert: 9223372036854775808: bytes 39323233333732303336383534373735383038 | the row doesn't convert: (9223372036854775808): (bytes 39323233333732303336383534373735383038)
as bool text 1 -> true | true
as bool text 2 -> the value doesn't convert: 2: bytes 32 | the row doesn't convert: (2): (bytes 32)
as String text a -> \"a\" | \"a\"
as String bytes ff -> the value doesn't convert: \u{fffd}: bytes ff | the row doesn't convert: (\u{fffd}): (bytes ff)
as Option<u8> text 1 -> Some(1) | Some(1)
as Option<u8> text x -> the value doesn't convert: x: bytes 78 | the row doesn't convert: (x): (bytes 78)
as Vec<u8> bytes ff -> [255] | [255]
as Value text x -> Bytes(Blob { bytes: [120] }) | Bytes(Blob { bytes: [120] })
# numbers as they are, NULL, and values of other kinds, which are given back
as i64 uint 7 -> 7 | 7
as u8 int 255 -> 255 | 255
as bool uint 1 -> true | true
as Option<u8> NULL -> None | None
as i64 float 0 -> the value doesn't convert: float 0x00000000: float 0x00000000 | the row doesn't convert: (float 0x00000000): (float 0x00000000)
# how values of each kind are printed where they do not convert
as u8 date 2020 12 31 1 2 3 4 -> the value doesn't convert: 2020-12-31 01:02:03.000004: 2020-12-31 01:02:03.000004 | the row doesn't convert: (2020-12-31 01:02:03.000004): (2020-12-31 01:02:03.000004)
as u8 time 1 1 2 3 4 5 -> the value doesn't convert: -1 02:03:04.000005: -1 02:03:04.000005 | the row doesn't convert: (-1 02:03:04.000005): (-1 02:03:04.000005)
as u8 time 0 0 0 0 0 0 -> the value doesn't convert: 0 00:00:00.000000: 0 00:00:00.000000 | the row doesn't convert: (0 00:00:00.000000): (0 00:00:00.000000)
as u8 int -256 -> the value doesn't convert: -256: int -256 | the row doesn't convert: (-256): (int -256)
as u8 uint 256 -> the value doesn't convert: 256: uint 256 | the row doesn't convert: (256): (uint 256)
as u8 float 1065353216 -> the value doesn't convert: float 0x3f800000: float 0x3f800000 | the row doesn't convert: (float 0x3f800000): (float 0x3f800000)
as u8 double 1 -> the value doesn't convert: double 0x0000000000000001: double 0x0000000000000001 | the row doesn't convert: (double 0x0000000000000001): (double 0x0000000000000001)
as u8 NULL -> the value doesn't convert: NULL: NULL | the row doesn't convert: (NULL): (NULL)
as u8 bytes 3161ff -> the value doesn't convert: 1a\u{fffd}: bytes 3161ff | the row doesn't convert: (1a\u{fffd}): (bytes 3161ff)
# rows of two cells as tuples and as themselves; a row that does not convert is given back whole
tuple (u8,u8) text 1, text 2 -> (1, 2)
tuple Row text 1, text 2 -> (bytes 31, bytes 32)
tuple (u8,) text 1, text 2 -> the row doesn't convert: (1, 2): (bytes 31, bytes 32)
tuple (u8,Option<bool>) text 1, text 2 -> the row doesn't convert: (1, 2): (bytes 31, bytes 32)
tuple (u8,u8,u8) text 1, text 2 -> the row doesn't convert: (1, 2): (bytes 31, bytes 32)
tuple (u8,u8,u8,u8) text 1, text 2 -> the row doesn't convert: (1, 2): (bytes 31, bytes 32)
tuple (u8,u8,u8) int 1, NULL, text abc -> the row doesn't convert: (1, NULL, abc): (int 1, NULL, bytes 616263)
# a row of one cell converts, and one of two cells does not
tuple (u8,) text 1 -> (1,)
as u8 text 1 -> 1 | 1
as u8 text 1, text 2 -> 1 | the row doesn't convert: (1, 2): (bytes 31, bytes 32)
as u16 text 1 -> 1 | 1
as u16 text 1, text 2 -> 1 | the row doesn't convert: (1, 2): (bytes 31, bytes 32)
as u32 text 1 -> 1 | 1
as u32 text 1, text 2 -> 1 | the row doesn't convert: (1, 2): (bytes 31, bytes 32)
as u64 text 1 -> 1 | 1
as u64 text 1, text 2 -> 1 | the row doesn't convert: (1, 2): (bytes 31, bytes 32)
as i8 text 1 -> 1 | 1
as i8 text 1, text 2 -> 1 | the row doesn't convert: (1, 2): (bytes 31, bytes 32)
as i16 text 1 -> 1 | 1
as i16 text 1, text 2 -> 1 | the row doesn't convert: (1, 2): (bytes 31, bytes 32)
as i32 text 1 -> 1 | 1
as i32 text 1, text 2 -> 1 | the row doesn't convert: (1, 2): (bytes 31, bytes 32)
as i64 text 1 -> 1 | 1
as i64 text 1, text 2 -> 1 | the row doesn't convert: (1, 2): (bytes 31, bytes 32)
as bool text 1 -> true | true
as bool text 1, text 2 -> true | the row doesn't convert: (1, 2): (bytes 31, bytes 32)
as String text 1 -> \"1\" | \"1\"
as String text 1, text 2 -> \"1\" | the row doesn't convert: (1, 2): (bytes 31, bytes 32)
as Vec<u8> text 1 -> [49] | [49]
as Vec<u8> text 1, text 2 -> [49] | the row doesn't convert: (1, 2): (bytes 31, bytes 32)
as Value text 1 -> Bytes(Blob { bytes: [49] }) | Bytes(Blob { bytes: [49] })
as Value text 1, text 2 -> Bytes(Blob { bytes: [49] }) | the row doesn't convert: (1, 2): (bytes 31, bytes 32)
as Option<u8> text 1 -> Some(1) | Some(1)
as Option<u8> text 1, text 2 -> Some(1) | the row doesn't convert: (1, 2): (bytes 31, bytes 32)
# names in texts, outside of quotes and comments: what is prepared, and the names
names SELECT :foo, :bar, :foo -> [SELECT ?, ?, ?] foo bar foo
names SELECT :fooBar -> [SELECT ?Bar] foo
names SELECT :a, ? -> named and positional parameters in one text
names SELECT ?, ? -> [SELECT ?, ?]
names  -> []
names :a1_:b -> [??] a1_ b
names ::b -> [:?] b
names : a :1 :A : -> [: a :1 :A :]
names ':a' :b -> [':a' ?] b
names \":a?\" :b -> [\":a?\" ?] b
names `:a?` :b -> [`:a?` ?] b
names '\\':a' :b -> ['\\':a' ?] b
names \"\\\":a\" :b -> [\"\\\":a\" ?] b
names `\\`:a -> [`\\`?] a
names ''':a' :b -> [''':a' ?] b
names ':a -> [':a]
names '\\ -> ['\\]
names --:a -> [--?] a
names 1 - :a -> [1 - ?] a
names /* :a */ :b -> [/* :a */ ?] b
names /*/ :a */ :b -> [/*/ :a */ ?] b
names /* :a -> [/* :a]
names /*! :a */ /*+ :b */ -> [/*! ? */ /*+ ? */] a b
names 1 / :a -> [1 / ?] a
names ':a' ? /* :b */ -> [':a' ? /* :b */]
# values for names: of several pairs with one name the last counts
fill foo bar foo / named foo int 1, bar int 42, foo text bar -> bytes 626172, int 42, bytes 626172
fill / named foo int 1, bar int 42, foo text bar -> parameters of another kind than the text's
fill foo bar foo / empty -> no value for the parameter foo
fill / empty ->\x20
fill foo bar foo / placed int 1 -> parameters of another kind than the text's
fill / placed int 1 -> int 1
fill / placed float 1 -> parameters of another kind than the text's
# names that have no value are printed as text
fill x:c3bc / empty -> no value for the parameter ü
fill x:61ff62c3 / empty -> no value for the parameter a\u{fffd}b\u{fffd}
fill x: / empty -> no value for the parameter\x20
# many names with many pairs, which are not compared each with each
fill_many 3000 3000 -> the last number of each
fill_many 3001 3000 -> no value for the parameter n3000
# payloads that execute a statement: no values, all kinds, and a text of one chunk and of one byte more
execute 1 text bar, int 42, text bar -> 170100000000010000000001fd000800fd00036261722a0000000000000003626172
execute 2 -> 17020000000001000000
execute 2 NULL, int -1, uint 1, date 0 0 0 0 0 0 0, date 2020 12 31 0 0 0 0, date 0 0 0 0 0 1 0, time 1 0 0 0 0 0, time 0 0 0 0 0 1, NULL -> 170200000000010000000101010600080008800c000c000c000b000b000600ffffffffffffffff01000000000000000004e4070c1f07000000000000010801000000000000000c000000000000000001000000
execute 1 many 16777197 -> 17010000000001..16777215
execute 1 many 16777198 -> 170100000000010000000001fd00 after bytes
# bytes that are sent ahead: the beginning of each long payload and its length; a whole piece has 16,777,209 bytes
ahead 67305985 ->\x20
ahead 67305985 many 16777197 ->\x20
ahead 67305985 many 16777198 -> 18010203040000..16777205
ahead 67305985 NULL, many 16777209 -> 18010203040100..16777216
ahead 67305985 many 16777210, text , NULL, many 2 -> 18010203040000..16777216, 1801020304000009, 18010203040100, 180102030403000909
# two lists as they are sent to a MariaDB, and lists of other types
lists int 1 / NULL -> fa010000008000080000010000000000000001 of 9 and 1
lists int 1 / uint 2 -> of other types
lists int 1 / -> of other types
# a parameter: its type, and its bytes, none of which remain where they were sent ahead
parameter whole text ab -> 253 0 bytes 026162
parameter ahead text ab -> 253 0 bytes\x20
parameter ahead NULL -> 6 0
# statements: number, columns, and type and name of the parameter
statement 1 2 3 foo -> id=1 connection=7 params=1 columns=2 type=3 name=foo like
statement 2 2 3 foo -> id=2 connection=7 params=1 columns=2 type=3 name=foo unlike
statement 1 1 3 foo -> id=1 connection=7 params=1 columns=1 type=3 name=foo unlike
statement 1 2 4 foo -> id=1 connection=7 params=1 columns=2 type=4 name=foo unlike
statement 1 2 3 fo -> id=1 connection=7 params=1 columns=2 type=3 name=fo unlike
# the cache: the one that was put first goes, and one that was looked for stays
cache 1 p1p2 -> -1
cache 2 p1p2f1p3 -> --12
# the cache and a plain list of the last used do the same: calls by chance at most 0, 1, 3 and 5 statements
cache 0 p0f0r6p3f0r0p6p2f0c0h0f5p0p7f1f5p0p3p6f7p5h0p7r2p7f2f3p6p0p2f0f3h0f2p1f2p5f2p4p3f5p3p6h0f5p1f3f5p0f6p0p4p4p0h0c0p1f1f0p7f1p4p7p4r2h0p4p2p6p1f5p6f3p4p4p6h0p1r2r5p2c0p2f0f1p7r1h0p2r2r3r0p3f7f5p4p3f3h0p3p6f3p4p1f6r1f4p1f3h0r2p4f0p6f6p2p3p0f0p4h0p2p0p5p4p2r1f7p7f1p2h0f1r0p4p7p5f2f5p0r4f5h0f4p0p5p0p2r1r2p7f5p6h0p7f6p0f0r3f7p2f4f4p0h0p2f4f5p0p1f5p3f2f0f0h0p0c0p3f4f6p0f6p4f0f3h0f6p4p5p7p2f2p6p1f3f2h0c0p2p1f2p7f2p0f7p3p6h0r3f6p4r4p7p7f4f6f3f6h0p0p5p6f4f3f7p0p5f6f4h0p5p3f2p5c0r3p0p5p3r5h0p0p5r6r1f0p2r1f0p7f0h0r2p0r3f5p4c0f0p7r2p2h0r1r7f0p6p3f1p2r7f7p3h0 -> -------[]----------[]---------[]----------[]----------[]--------[]----------[]------[]-------[]---------[]---------[]---------[]--------[]--------[]---------[]----------[]---------[]----------[]---------[]--------[]----------[]-------[]-------[]------[]-------[]
cache 1 p0f0r6p3f0r0p6p2f0c0h0f5p0p7f1f5p0p3p6f7p5h0p7r2p7f2f3p6p0p2f0f3h0f2p1f2p5f2p4p3f5p3p6h0f5p1f3f5p0f6p0p4p4p0h0c0p1f1f0p7f1p4p7p4r2h0p4p2p6p1f5p6f3p4p4p6h0p1r2r5p2c0p2f0f1p7r1h0p2r2r3r0p3f7f5p4p3f3h0p3p6f3p4p1f6r1f4p1f3h0r2p4f0p6f6p2p3p0f0p4h0p2p0p5p4p2r1f7p7f1p2h0f1r0p4p7p5f2f5p0r4f5h0f4p0p5p0p2r1r2p7f5p6h0p7f6p0f0r3f7p2f4f4p0h0p2f4f5p0p1f5p3f2f0f0h0p0c0p3f4f6p0f6p4f0f3h0f6p4p5p7p2f2p6p1f3f2h0c0p2p1f2p7f2p0f7p3p6h0r3f6p4r4p7p7f4f6f3f6h0p0p5p6f4f3f7p0p5f6f4h0p5p3f2p5c0r3p0p5p3r5h0p0p5r6r1f0p2r1f0p7f0h0r2p0r3f5p4c0f0p7r2p2h0r1r7f0p6p3f1p2r7f7p3h0 -> -00-36-[]--0--703-6[5]5---760--[2]22-1-54--3[6]-6--1--0-4[0]-1-1-747[4]-426-1-6-4[6]61---2[7]7---343[3]-3-64----[1]1-4662300[4]42054-2-7[2]-247-55-[0]--050--7[6]6-70-0--2[0]0--20-1---[3]3---3-0--[4]--457226--[1]-2-1-7-03[6]66------[7]705---60--[5]-5-3-05[3]30-5-2-[7]7-0--7[2]-26-3-2[3]
cache 3 p0f0r6p3f0r0p6p2f0c0h0f5p0p7f1f5p0p3p6f7p5h0p7r2p7f2f3p6p0p2f0f3h0f2p1f2p5f2p4p3f5p3p6h0f5p1f3f5p0f6p0p4p4p0h0c0p1f1f0p7f1p4p7p4r2h0p4p2p6p1f5p6f3p4p4p6h0p1r2r5p2c0p2f0f1p7r1h0p2r2r3r0p3f7f5p4p3f3h0p3p6f3p4p1f6r1f4p1f3h0r2p4f0p6f6p2p3p0f0p4h0p2p0p5p4p2r1f7p7f1p2h0f1r0p4p7p5f2f5p0r4f5h0f4p0p5p0p2r1r2p7f5p6h0p7f6p0f0r3f7p2f4f4p0h0p2f4f5p0p1f5p3f2f0f0h0p0c0p3f4f6p0f6p4f0f3h0f6p4p5p7p2f2p6p1f3f2h0c0p2p1f2p7f2p0f7p3p6h0r3f6p4r4p7p7f4f6f3f6h0p0p5p6f4f3f7p0p5f6f4h0p5p3f2p5c0r3p0p5p3r5h0p0p5r6r1f0p2r1f0p7f0h0r2p0r3f5p4c0f0p7r2p2h0r1r7f0p6p3f1p2r7f7p3h0 -> -0-0---[]-------073[567]-----670-[025]2520215--2[346]-43-6--1--[034]-1--1---[147]-714---2--[146]-6----[27]--7---3[347]-73-46--3[136]6-1634602[034]3-0---4--[257]-2---575[05]------50[567]-670-5---[026]----6-02--[123]1------03[034]--403257-2[126]--2-21720[367]6----6-6[67]-7------6-[056]-0-----[03]--03050[027]------[27]-------[236]
cache 5 p0f0r6p3f0r0p6p2f0c0h0f5p0p7f1f5p0p3p6f7p5h0p7r2p7f2f3p6p0p2f0f3h0f2p1f2p5f2p4p3f5p3p6h0f5p1f3f5p0f6p0p4p4p0h0c0p1f1f0p7f1p4p7p4r2h0p4p2p6p1f5p6f3p4p4p6h0p1r2r5p2c0p2f0f1p7r1h0p2r2r3r0p3f7f5p4p3f3h0p3p6f3p4p1f6r1f4p1f3h0r2p4f0p6f6p2p3p0f0p4h0p2p0p5p4p2r1f7p7f1p2h0f1r0p4p7p5f2f5p0r4f5h0f4p0p5p0p2r1r2p7f5p6h0p7f6p0f0r3f7p2f4f4p0h0p2f4f5p0p1f5p3f2f0f0h0p0c0p3f4f6p0f6p4f0f3h0f6p4p5p7p2f2p6p1f3f2h0c0p2p1f2p7f2p0f7p3p6h0r3f6p4r4p7p7f4f6f3f6h0p0p5p6f4f3f7p0p5f6f4h0p5p3f2p5c0r3p0p5p3r5h0p0p5r6r1f0p2r1f0p7f0h0r2p0r3f5p4c0f0p7r2p2h0r1r7f0p6p3f1p2r7f7p3h0 -> -0-0---[]--------7-[03567]---3--0-3[23567]262-27-5-3[12456]5--516----[02456]-1--1---[147]----------[12467]------[27]--7---3[347]--3--64-3[13467]---67-401[02346]--3---6--[02457]----25-5[0257]------5-[0567]-6-07----[02567]--5-6502--[12357]7------03[034]----4203-2[12567]--2-2-7-1[02367]6----6-6[0267]-----7--6-[02567]-2-----[03]--0-0-0[02357]-5----[27]-------[236]
# columns that are known: others in their place, and the first go where one too many is known
known get 1, 1 2 0, 2 3 1, 1 2 2, get 1, get 2, get 3 -> -21-
known 0 65536 0, get 0, get 1, get 65535, 1 2 1, 65536 65537 1, get 1, get 2, get 65536 -> -001-1";

/// Texts and URLs that hold line ends, with a `|` between the rows.
pub const OF_LINES: &str = "\
names # :a\n:b -> [# :a\n?] b|names -- :a\n:b -> [-- :a\n?] b|url  mysql://h/d b \n -> h 3306 db=d b|url my\tsql://h\n/db -> h 3306 db=db";
