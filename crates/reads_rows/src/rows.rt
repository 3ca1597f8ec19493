//! Calls whose rows are returned at once.

/// Talks: what they returned, in the text of `{:?}`.
pub const ASKED: &str = "\
connect | @greeting turn @login_ok | ok
collect SELECT n, t FROM people | turn @people | [(7, \"ann\"), (9, \"bo\")]

connect | @greeting turn @login_ok | ok
first SELECT n, t FROM people | turn @people | Some((7, \"ann\"))
first_row SELECT n, t FROM people | turn @no_people | None
first SELECT n, t FROM people | turn @people | Some((7, \"ann\"))

connect | @greeting turn @login_ok | ok
fold SELECT n, t FROM people | turn @people | 179
fold_rows SELECT n, t FROM people | turn @no_people | 4

connect | @greeting turn @login_ok | ok
map SELECT n, t FROM people | turn @people | [7, 9]

connect | @greeting turn @login_ok | ok
first_numbers SELECT n, t FROM people | turn @people | error row
first SELECT n, t FROM people | turn @people | Some((7, \"ann\"))

connect | @greeting turn @login_ok | ok
ignore SELECT n, t FROM people | turn @err | error 1064
ignore SELECT n, t FROM people | turn @ok | ()

connect | @greeting turn @login_ok | ok
lend SELECT n, t FROM people | turn @people turn @ok | [(7, \"ann\"), (9, \"bo\")]
first SELECT n, t FROM people | turn @people | Some((7, \"ann\"))

connect | @greeting turn @login_ok | ok
prep SELECT ? | turn @number_statement | statement
exec 42 | turn @numbers | [5, 3]
exec 42 of SELECT ? | turn @numbers | [5, 3]

connect | @greeting turn @login_ok | ok
exec_first 42 of SELECT ? | turn @number_statement turn @numbers | Some(5)
exec_batch 42 42 of SELECT ? | turn @ok turn @ok | ok

connect | @greeting turn @login_ok | ok
exec 42 of SELECT ? | turn @err | error 1064

connect | @greeting turn @login_ok | ok
prep SELECT ? | turn @number_statement | statement
exec_first 42 | turn @numbers | Some(5)
prep SELECT ? || statement
exec_ignore 42 | turn @numbers | ()

connect | @greeting turn @login_ok | ok
prep SELECT ? | turn @number_statement | statement
exec_fold 42 | turn @numbers | 153

connect | @greeting turn @login_ok | ok
prep SELECT ? | turn @number_statement | statement
exec_map 42 | turn @numbers | [true, false]

connect | @greeting turn @login_ok | ok
prep SELECT ? | turn @number_statement | statement
exec_batch 42 42 | turn @ok turn @ok | ok
prep SELECT ? || statement
close || ok

connect | @greeting turn @login_ok | ok
send query SELECT 1 | turn @head @row @end | ok
send next || row
send drop || ok
send ping | turn @ok | ok

connect | @greeting turn @login_ok | ok
send prepare SELECT :a | turn @statement | statement of a
send execute a=42 | turn @head @binary_row @end | ok
send next || row
send next || end
send batch a=42 a=42 | turn @ok turn @ok | ok
send close || ok

connect | @greeting turn @login_ok | ok
send begin serializable read only with snapshot | turn @ok turn @ok turn @ok | ok
send commit | turn @ok | ok
send begin | turn @ok | ok
send begin || error nested
send rollback | turn @ok | ok";
