//! Connections: a session on a link, polled until each call returns, with a tape of what it did.
#![tactic(auto)]

mod begin;
mod first;
mod forget;
mod handshake;
mod making;
mod notes;
mod poll;
mod tape;
mod texts;

pub use begin::{cancel_open, poll_once};
pub use first::begin_session;
pub use forget::forget_open;
pub use handshake::{TOO_LONG, never_holds, shake_hands};
pub use making::{MakeStep, make};
pub use my_link::{
    AfterConnect, AfterStep, Aid, BlockingLink, CheckStep, DialStep, Dialer, GlobalHandler,
    InfileSource, Link, NoAid, Opening, ReadStep, ReadyLink, WriteStep,
};
pub use poll::After;
pub use tape::{DoneCall, OpenCall, Said, Tape};
pub use texts::Making;
