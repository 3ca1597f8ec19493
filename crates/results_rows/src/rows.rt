//! The rows.

/// A row is how a result is read, its packets, what the reads return, and what one more read returns.
pub const ROWS: &str = "\
next | people end | 2 2 end end | end
next | people more number | 2 2 end 1 | end
next | changed | end end end end | end
next | people err_6 | 2 2 error 1064 end | end
next | err | error 1064 | end
facts | changed | 3 Some(7) 1 true | end
collect | people end | [(7, \"ann\"), (9, \"bo\")] | end
collect | people more number | [(7, \"ann\"), (9, \"bo\")] | 1
collect | changed | [] | end
collect | unnumbered | error row | 2
collect | people err_6 | error 1064 | end
collect drop | people more number | [(7, \"ann\"), (9, \"bo\")] | end
collect drop | unnumbered | error row | 2
try_collect | people more number | Ok Ok | 1
try_collect | unnumbered | Ok row Ok | end
try_collect drop | people more number | Ok Ok | end
try_collect drop | unnumbered | Ok row Ok | end
map | people more number | [2, 2] | 1
map drop | people more number | [2, 2] | end
reduce | people more number | 179 | 1
reduce | unnumbered | error row | 2
reduce drop | people more number | 179 | end
for_each | people more number | () | 1
for_each drop | people more number | () | end
all drop | people more number | () | end
all drop | people err_6 | error 1064 | end
stream | people more number | 7 9 end end | 1
stream | unnumbered | 7 error row 9 end | end
stream | people err_6 | 7 9 error 1064 end | end
stream | changed | end end end end | end
small | mixed | Some(1) error another row Some(2) None | end
try_small | mixed | Ok row Ok | end
sum | pairs one_pair | 10 | 2
sets | people more number | 2 1 none | end
firsts | people more number | 2 1 none | end
of | people more number | [(7, \"ann\"), (9, \"bo\")] | 1
new | people more number | [(7, \"ann\"), (9, \"bo\")] | 1
exec | statement turn numbers | [5, 3] | end
exec | err | error 1064 | end";
