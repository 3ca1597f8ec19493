//! Words of commands, URLs that are refused, and lines that do not read.

pub const WORDS: &str = "\
# words: none
$.
status 2

# words: one
$ script
status 2

# words: no command
$ fly|a\u{1}b
status 2

# words: too many
$ script|plain,root,,4194304,28800|more
status 2

# words: a URL
$ script|mysql://root@localhost
judge 0 0 0 0 0 0

# words: three parts behind plain
$ script|plain,root,,4194304
status 6
cause the word is refused: after plain, it has USER,PASS,PACKET,WAIT

# words: five parts behind plain
$ script|plain,root,,4194304,28800,1
status 6
cause the word is refused: after plain, it has USER,PASS,PACKET,WAIT

# words: a number that is no u64
$ script|plain,root,,4194304,18446744073709551616
status 6
cause the word is refused: after plain, it has USER,PASS,PACKET,WAIT

# words: live alone
$ live
> conn
status 2

# lines: the first that does not read
> conn|fly 0|swim 0
status 3
cause 2 fly 0
whole

# lines: a line of the world behind a step
> conn
>@ turn
status 3
cause 2 turn 0

# lines: a control character
> \u{1}
status 3
cause 1 \u{1}

# lines: a text that fits exactly
room 64
> conn|conn
judge 34 0 64 0 0 0

# lines: a remark and an empty line
> # nothing|
judge 0 0 0 0 0 0

# lines: the first 200 bytes of a long one
>. xxxxxxxxxxxxxxxxxxxxxxxxxxxxxxxxxxxxxxxxxxxxxxxxxxxxxxxxxxxxxxxxxxxxxxxxxxxxxxxxxxxxxxxxxxxxxxxxxxxxxxxxxxxxxxxxxxxxxxxxxxxxxxxxxxxxxxxxxxxxxxxxxxxxxxxxxxxxxxxxxxxxxxxxxxxxxxxxxxxxxxxxxxxxxxxxxxxxxxxxx
status 3
cause 1 xxxxxxxxxxxxxxxxxxxxxxxxxxxxxxxxxxxxxxxxxxxxxxxxxxxxxxxxxxxxxxxxxxxxxxxxxxxxxxxxxxxxxxxxxxxxxxxxxxxxxxxxxxxxxxxxxxxxxxxxxxxxxxxxxxxxxxxxxxxxxxxxxxxxxxxxxxxxxxxxxxxxxxxxxxxxxxxxxxxxxxxxxxxxxxxxxxxxxxxx

# lines: no lines of a world in live
$ live|plain,root,,4194304,28800
>@ turn
> conn
status 3
cause 1 turn 0

# lines: nothing is planned
$ live|plain,root,,4194304,28800
> conn
< 1 pending
< sent 0 -|taken 0 -|end
whole
judge 18 0 22 0 0 0

# refusals: no word
$ script|
> conn
status 6
cause the URL is refused: no URL
whole

# refusals: a word
$ script|plain
> conn
status 6
cause the URL is refused: no URL
whole

# refusals: a number
$ script|42
> conn
status 6
cause the URL is refused: no URL
whole

# refusals: no host
$ script|mysql:///shop
> conn
status 6
cause the URL is refused: no host
whole

# refusals: another scheme
$ script|postgres://root@localhost
> conn
status 6
cause the URL is refused: unsupported scheme postgres
whole

# refusals: an unknown parameter
$ script|mysql://root@localhost?bar=baz
> conn
status 6
cause the URL is refused: unknown parameter bar
whole

# refusals: a value that is no number
$ script|mysql://root@localhost?wait_timeout=x
> conn
status 6
cause the URL is refused: the value of wait_timeout is no number up to 18446744073709551615
whole

# refusals: bounds of the pool
$ script|mysql://root@localhost?pool_max=5
> conn
status 6
cause the URL is refused: pool_min 10 is above pool_max 5
whole

# refusals: a feature that is not built
$ script|mysql://root@localhost?require_ssl=true
> conn
status 6
cause the URL is refused: require_ssl needs tls, which this client lacks
whole

# words: the longest URL
$. script|mysql://
$* 1048512 0 u
$ @localhost?max_allowed_packet=4194304&wait_timeout=28800
> # nothing
judge 0 0 0 0 0 0

# words: a URL that is too long
$. script|mysql://
$* 1048513 0 u
$ @localhost?max_allowed_packet=4194304&wait_timeout=28800
> # nothing
status 6
cause the URL is refused: it is longer than 1048576 bytes";
