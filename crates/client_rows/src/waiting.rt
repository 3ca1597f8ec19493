//! Talks whose calls wait.

/// A line is a call, what the link plays for it, and its answer, as in those that are polled. A link that isn't
/// ready has failed. A connection is made with options, or by the URL of its line.
pub const WAITING: &str = "\
# a whole talk

connect | @greeting turn @login_ok | ok
ping | turn @changed | ok
changes || 3 7 1 note
server || 7 8.0.36 root 28800
query SELECT 1 | turn @head @row @end | ok
next || row
next || end
next || none
query SELECT 1 | turn @head @row @end | ok
drop || ok
count SELECT 1 | turn @head @row @end | 1
quit || ok
server || closed

# the making of a connection over a link that is not ready, ends or fails, and a server that refuses

connect | wait | error link

connect | end | error end

connect | 0200 end | error end

connect | fail | error link

connect | @greeting wfail | error link

connect | @greeting turn @login_err | error 1045

# errors, ends and faults in the midst

connect | @greeting turn @login_ok | ok
query SELECT 1 | turn @err | error 1064
ping | turn @ok | ok

connect | @greeting turn @login_ok | ok
query SELECT 1 | turn @head 0200 end | ok
next || error end
ping || error closed
quit || ok
server || closed

connect | @greeting turn @login_ok | ok
query SELECT 1 | turn fail | error link
ping || error closed

connect | @greeting turn @login_ok | ok
query SELECT 1 || error link
ping || error closed
quit || ok

connect | @greeting turn @login_ok | ok
query SELECT 1 | turn accept=64 wfail | error link
ping || error closed
quit || ok

# streams

connect | @greeting turn @login_ok | ok
query SELECT 1 | turn @head @row @more @ok_5 | ok
stream || ok
next || row
stream || ok
next || end
next || none
stream || none

connect | @greeting turn @login_ok | ok
query SELECT 1 | turn @head @row @more @err_5 | ok
stream || ok
stream || error 1064

# checks

connect | @greeting turn @login_ok | ok
check || alive

connect | @greeting turn @login_ok end | ok
check || dead

connect | @greeting turn @login_ok_and_more | ok
check || unread

# connections by a URL

connect mysql://root@localhost?max_allowed_packet=4194304&wait_timeout=28800 | @greeting turn @login_ok | ok
ping | turn @ok | ok
server || 7 8.0.36 root 28800

connect mysql://root@localhost?max_allowed_packet=4194304&wait_timeout=28800 | @greeting turn @login_err | error 1045

connect mysql://root@localhost?speed=1 | @greeting turn @login_ok | error speed

# facts

connect | @greeting turn @login_ok | ok
life || endless 28800000 reset
query SELECT 1 | turn @ok | ok
dirty || yes
next || end
dirty || no

connect | @greeting turn @login_ok | ok
moment || 5
marks || pooled kept 7
query SELECT 1 | turn @ok turn @ok | ok
moment || 7

# prepared statements

connect | @greeting turn @login_ok | ok
prepare SELECT :a | turn @statement | statement of a
columns || one
execute a=42 | turn @head @binary_row @null_row @end_5 | ok
columns || one
next || row
next || row
next || end
close || ok

connect | @greeting turn @login_ok | ok
prepare SELECT :a | turn @statement | statement of a
execute a=42 | turn @head @binary_row @end | ok
prepare SELECT :a || statement of a
next || row
next || end
prepare SELECT :a, ? || error mixed
ping | turn @ok | ok

connect | @greeting turn @login_ok | ok
prepare SELECT :a | turn @err | error 1064
prepare SELECT :a | turn @statement | statement of a
execute || error params
ping || error closed

# batches

connect | @greeting turn @login_ok | ok
prepare SELECT :a | turn @statement | statement of a
batch a=42 a=42 | turn @head @binary_row @end turn @head @binary_row @end | ok
columns || one
dirty || no
next || none
ping | turn @ok | ok

connect | @greeting turn @login_ok | ok
prepare SELECT :a | turn @statement | statement of a
batch || ok
ping | turn @ok | ok

connect | @greeting turn @login_ok | ok
prepare SELECT :a | turn @statement | statement of a
batch a=42 - | turn @ok | error params
ping || error closed

connect | @greeting turn @login_ok | ok
prepare SELECT :a | turn @statement | statement of a
batch a=42 a=42 | turn @ok turn @err | error 1064
ping | turn @ok | ok

# resets

connect | @greeting turn @login_ok | ok
query SELECT 1 | turn @head @row @end | ok
reset | turn @ok | ok
ping | turn @ok | ok

connect | @greeting turn @login_ok | ok
prepare SELECT :a | turn @statement | statement of a
execute a=42 | turn @head @binary_row @end | ok
reset | turn @ok | ok
columns || one
prepare SELECT :a | turn @statement | statement of a

connect | @greeting_5_7_2 turn @login_ok | ok
prepare SELECT :a | turn @statement | statement of a
execute a=42 | turn @head @binary_row @end | ok
reset || none
prepare SELECT :a || statement of a
next || row
next || end
ping | turn @ok | ok

connect | @greeting turn @login_ok | ok
reset | turn @err | error 1064
ping | turn @ok | ok

connect | @greeting turn @login_ok | ok
reset || error link
ping || error closed

# changes of user

connect | @greeting turn @login_ok | ok
user bob | turn @ok | ok
account || bob
ping | turn @ok | ok

connect | @greeting turn @login_ok | ok
user bob secret shop | turn @ok | ok
account || bob
ping | turn @ok | ok

connect | @greeting turn @login_ok | ok
user bob | turn @err | error 1064
account || bob
ping | turn @ok | ok

connect | @greeting turn @login_ok | ok
prepare SELECT :a | turn @statement | statement of a
execute a=42 | turn @head @binary_row @end | ok
user bob | turn @ok | ok
columns || one
prepare SELECT :a | turn @statement | statement of a

connect | @greeting turn @login_ok | ok
user bob || error link
ping || error closed

connect | @greeting turn @login_ok | ok
quit || ok
user bob || error closed
ping || error closed

# transactions that are given up

connect | @greeting turn @login_ok | ok
forget || ok
dirty || no
ping | turn @ok | ok

connect | @greeting turn @login_ok | ok
quit || ok
forget || ok
ping || error closed

# connections that end

connect mysql://root@localhost?max_allowed_packet=4194304&wait_timeout=28800&abs_conn_ttl=60&conn_ttl=9&reset_connection=false | @greeting turn @login_ok | ok
life || 60005 9000 kept";
