//! The rows.

/// A row is how a result or a stream is read, its packets, what the reads return, and what one more read returns.
pub const ROWS: &str = "\
unread | people end | 2 2 2 none none | end
unread | people more number | 2 2 2 further 1 | end
unread | changed | none none none none none | end
unread | people err_6 | 2 2 2 none none | end
own all | people more number | 7 , 9 , end . end . | 1
own all | unnumbered | 7 , error row , 9 , end . | end
own all | people err_6 | 7 , 9 , error 1064 . end . | end
own all | changed | end . end . end . end . | end
own collect | people more number | [(7, \"ann\"), (9, \"bo\")] | 1
own collect | unnumbered | error row | 2
own again | unnumbered | error row [(9, \"cy\")] | end
taken | people more number | [(7, \"ann\"), (9, \"bo\")] | 1
taken | err | error 1064 | end
own facts | changed | 0 0 true 3 Some(7) 1 true | end
own facts | people end | 2 2 true 0 None 0 false | 2
query_stream all | people more number | 7 , 9 , end . end . | 1
query_stream all | err | error 1064 | end
query_stream facts | changed | 0 0 true 3 Some(7) 1 true | end
exec_stream | statement turn numbers | [5, 3] | end
exec_stream | err | error 1064 | end
text run | people more number | [(7, \"ann\"), (9, \"bo\")] | 1
text first | people more number | Some((7, \"ann\")) | end
text first | changed | None | end
text fetch | people more number | [(7, \"ann\"), (9, \"bo\")] | end
text fetch | unnumbered | error row | 2
text map | people more number | [7, 9] | end
text reduce | people more number | 179 | end
text stream | people more number | [(7, \"ann\"), (9, \"bo\")] | 1
text ignore | people more number | () | end
text ignore | err | error 1064 | end
with run | statement turn numbers | [5, 3] | end
with first | statement turn numbers | Some(5) | end
with fetch | statement turn numbers | [5, 3] | end
with fetch | err | error 1064 | end
with map | statement turn numbers | [true, false] | end
with reduce | statement turn numbers | 153 | end
with stream | statement turn numbers | [5, 3] | end
with ignore | statement turn numbers | () | end
batch | statement turn changed turn changed | () | end
batch | statement turn changed turn err | error 1064 | end";
