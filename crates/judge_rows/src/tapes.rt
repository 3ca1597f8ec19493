//! Tapes of queries, of sets that streams take, of statements and of batches, and changes of them.

/// A tape is separated from the next by an empty line. Lines with `#` say what is tried.
///
/// `login` is followed by who logs in (`logins::login`). A line with `|` is a call: its words, what it sent, what it
/// received (names of parts after an `@`, or digits, or `-` for nothing), how it ended, and what it needs of what it
/// received: all; `number`, a sequence id, after which nothing is read; `more`, all and more, and these bytes allow the
/// endings that follow; `closed`, nothing, since the connection is closed. After `at` are the numbers of bytes that were
/// sent and received when it began, if they aren't those of the calls before it; `bytes` are of no call.
///
/// A line with `~` is a call, a change of it (`changes::Change`), and the call at which the tape is refuted then, or
/// `accepted`. A line with `=`: the tape is accepted, and of its changes, those of the lines with `~` and all that
/// `trials` makes of the calls from this one on, this number is refuted, each at the call that is known for it. A line
/// with `-` and a number: if this call follows those before, the tape is refuted at the call with the number.
pub const TAPES: &str = "\
# A login, of which later rows change nothing.
login plain
connect | @response | @greeting | ready
ping | @ping | @ok | ready
~ 0 | missing | 0
~ 0 | swapped | 0
= from 0 refuted 52

# A connection is made once it is set up whole.
login asking
connect | @response @ask_limit @do_1 | @greeting @packet_limit @ok | ready
ping | @ping | @ok | ready
# The sequence ids of the set's packets and of the OK after them; bytes of both queries.
~ 0 | taken byte 92 | 0
~ 0 | taken byte 97 | 0
~ 0 | taken byte 124 | 0
~ 0 | taken byte 137 | 0
~ 0 | taken byte 148 | 0
~ 0 | sent byte 70 | 0
~ 0 | sent byte 102 | 0
# The server may say another number, and warnings are no part of an answer.
~ 0 | taken byte 126 | accepted
~ 0 | taken byte 155 | accepted
= from 0 refuted 57

# A query with a row, its end and nothing after it, a ping, and what follows a quit.
login plain
connect | @response | @greeting | ready
query SELECT 1 | @select | @head | ready
next | - | @row | row 1
next | - | @end | end
next | - | - | none
ping | @ping | @ok | ready
quit | @quit | - | ready
ping | - | - | refused closed | closed
quit | - | - | ready | closed
# The cell; a row after its end; the end is gone.
~ 2 | taken byte 5 | 2
~ 2 | swapped | 2
~ 3 | missing | 3
# Warnings are no part of an answer, and a call without bytes may be missing.
~ 5 | taken byte 10 | accepted
~ 4 | missing | accepted
~ 5 | missing | accepted
# Bytes may be received early.
~ 1 | taken earlier | accepted
~ 4 | taken earlier | accepted
= from 1 refuted 170

# A lone OK has an end; a query's ERR leaves nothing.
login plain
connect | @response | @greeting | ready
query DO 1 | @do_1 | @ok | ready
next | - | - | end
next | - | - | none
query DO 1 | @do_1 | @err | error 1064
drop | - | - | ready
~ 2 | missing | 2
~ 2 | swapped | 2
# The code and the message of the ERR.
~ 4 | taken byte 5 | 4
~ 4 | taken byte 13 | 4
~ 3 | missing | accepted
~ 5 | missing | accepted
~ 4 | swapped | accepted
= from 1 refuted 106

# A query returns an ERR that was left of an earlier one, and sends nothing.
login plain
connect | @response | @greeting | ready
query SELECT 1 | @select | @head | ready
query DO 1 | - | @err_of_row | error 1064
query DO 1 | @do_1 | @ok | ready
drop | - | - | ready
next | - | - | none
~ 2 | swapped | 2
~ 4 | missing | 4
~ 4 | swapped | 4
~ 5 | missing | accepted
= from 1 refuted 109

# A read that is cancelled among rows is read on; a drop reads the rest.
login plain
connect | @response | @greeting | ready
query SELECT 1 | @select | @head | ready
next | - | 02 | cancelled 0 | more | open, cancelled 0, link 4, eof 4
next | - | 0000030131 | row 1
next | - | - | cancelled 0 | more | open, cancelled 0
drop | - | @end | ready
ping | @ping | @ok | ready
~ 4 | missing | accepted
~ 2 | taken earlier | accepted
# An open call is the newest one.
~ 2 | ending open | 3
= from 1 refuted 121

# A payload that fits no case closes the connection.
login plain
connect | @response | @greeting | ready
query SELECT 1 | @select | @head | ready
next | - | 00000003 | unfit 4
ping | - | - | refused closed | closed
= from 1 refuted 64

# So does a wrong sequence id, whatever follows it.
login plain
connect | @response | @greeting | ready
query DO 1 | @do_1 | 0100000501 | number 1 5 | number
next | - | - | refused closed | closed
= from 1 refuted 42

# A command of which a part was sent.
login plain
connect | @response | @greeting | ready
query DO 1 | 0500 | - | open | more | open, cancelled 1
~ 1 | sent less | accepted
~ 1 | ending link 2 | accepted
= from 1 refuted 20

# A query that is cancelled before its answer closes the connection.
login plain
connect | @response | @greeting | ready
query DO 1 | @do_1 | - | cancelled 1 | more | open, cancelled 1
next | - | - | refused closed | closed
~ 1 | ending open | 2
~ 1 | sent less | accepted
~ 1 | ending eof 2 | accepted
= from 1 refuted 38

# So does a drop that is cancelled where a further head is awaited.
login plain
connect | @response | @greeting | ready
query DO 1 | @do_1 | @ok_more | ready
drop | - | - | cancelled 1 | more | open, cancelled 1
next | - | - | refused closed | closed
~ 2 | missing | 2
= from 1 refuted 60

# A stream takes a set and reads its row; what is left of the set is passed over, and then nothing is left to be taken.
login plain
connect | @response | @greeting | ready
query SELECT 1 | @select | @head | ready
take | - | - | ready
next | - | @row | row 1
skip | - | @end | ready
take | - | - | none
~ 2 | missing | accepted
~ 3 | missing | 3
~ 4 | missing | 4
~ 5 | swapped | accepted
= from 1 refuted 101

# A statement is prepared and executed; it is found in the cache, and closed.
login plain
connect | @response | @greeting | ready
prepare SELECT ? | @prepare | @prepared | stmt 1
execute 1 | @execute_1 | @head | ready
next | - | @cell | cell 1
next | - | @end | end
prepare SELECT ? | - | - | stmt 1
close 1 | @close | - | ready
# Another number of parameters; another cell; the statement is found where it wasn't prepared, and where it was closed.
~ 1 | ending stmt 2 | 1
~ 3 | ending cell 2 | 3
~ 1 | missing | 4
~ 5 | swapped | 6
~ 5 | missing | accepted
= from 1 refuted 139

# A link that fails where a row is awaited.
login plain
connect | @response | @greeting | ready
query SELECT 1 | @select | @head | ready
next | - | 02 | link 4 | more | open, cancelled 0, link 4, eof 4
ping | - | - | refused closed | closed
quit | - | - | ready | closed
~ 2 | missing | 2
~ 2 | ending link 3 | 2
~ 3 | swapped | accepted
~ 2 | ending eof 4 | accepted
~ 2 | taken less | accepted
= from 1 refuted 76

# A batch of two lists reads the set of its first execution whole, and the next response. One of none reads nothing.
login plain
connect | @response | @greeting | ready
prepare SELECT ? | @prepare | @prepared | stmt 1
batch 1, 2 | @execute_1 @execute_2 | @head @cell @end @ok | ready
next | - | - | none
query SELECT 1 | @select | @head | ready
batch | - | - | ready
next | - | @row | row 1
# The value of the second execution; the sequence ids of the row and of the set's end.
~ 2 | sent byte 44 | 2
~ 2 | taken byte 35 | 2
~ 2 | taken byte 49 | 2
# A cell that is passed over is no part of an answer.
~ 2 | taken byte 38 | accepted
~ 5 | missing | accepted
~ 4 | swapped | accepted
= from 2 refuted 108

# The second list doesn't fit: its execution isn't sent, and the connection is closed.
login plain
connect | @response | @greeting | ready
prepare SELECT ? | @prepare | @prepared | stmt 1
batch 1, 1 2 | @execute_1 | @ok | refused 2
next | - | - | refused closed | closed
~ 2 | ending refused 1 | 2
= from 2 refuted 46

# The first execution is answered by an ERR: the second one isn't sent, and the connection may be used.
login plain
connect | @response | @greeting | ready
prepare SELECT ? | @prepare | @prepared | stmt 1
batch 1, 2 | @execute_1 | @err | error 1064
ping | @ping | @ok | ready
= from 2 refuted 52";
