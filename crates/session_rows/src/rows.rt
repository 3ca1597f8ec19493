//! The rows. A talk is a block of lines, and a blank line is between two. Lines with `#` say what it shows. The next line has the
//! server's version and the options: after `@` the session connects at once, after `+` by a line of its own. Then come its calls:
//! of each the call, the bytes that are received for it, and what is sent for it with its answer, separated by `|`. After `~` the
//! bytes of a call are cut at each place. Other lines show the settings, the columns that are known of the last statement, and the
//! user of the options.

pub mod changes;
pub mod connects;
pub mod cuts;
pub mod logins;
pub mod resets;
pub mod statements;
pub mod talks;
pub mod transactions;
