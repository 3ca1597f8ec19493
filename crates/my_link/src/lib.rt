//! Links to servers: what a session reads from and writes to, and a link in memory; what dials links, and what lends a
//! connection files and texts.
#![tactic(auto)]

mod aid;
mod blocking;
mod dialer;
pub mod laws;
mod line;
mod link;
mod mem_world;
mod memory;
mod met;
mod poll;
mod world;

pub use aid::{AfterConnect, AfterStep, Aid, GlobalHandler, InfileSource, NoAid, Opening};
pub use blocking::{BlockingLink, ReadyLink, read_blocking};
pub use dialer::{DialItem, DialStep, Dialer};
pub use line::WorldLine;
pub use link::{CheckStep, Link, ReadItem, ReadStep, WriteItem, WriteStep};
pub use mem_world::MemWorld;
pub use memory::MemLink;
pub use memory::planned::{Addition, Planned};
pub use memory::writes::{Room, Writes};
pub use met::Met;
pub use poll::Poll;
pub use world::World;
