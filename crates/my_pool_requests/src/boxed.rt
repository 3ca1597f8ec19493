//! A connection that is being made, behind a box.

ghost use Rattle.std.specs.Prelude.{◌≡◌, IfOk};

use my_conn::Connecting;
use my_frame::NoMemory;
use std::alloc::Global;
use std::marker::Model;

/// A connection that is being made, behind a box: it moves by its address alone. Contracts see what is being made.
#[derive(Drop)]
pub(crate) struct BoxedMaking<L> {
    inner: Box<Connecting<L>>,
}

impl<L> Model for BoxedMaking<L> {
    ghost use Rattle.my_conn.specs.Connects.{ConnectSeen};

    ghost Value = { ConnectSeen L };

    ghost view = { λ b. b.inner.value };
}

impl<L> BoxedMaking<L> {
    /// What is being made, without its box.
    pub(crate) fn into_making(self) -> Connecting<L>
        ensures { result ≡ self }
    {
        let BoxedMaking { inner } = self;
        Box::into_inner(inner)
    }
}

impl<L: Drop> BoxedMaking<L> {
    /// It is put behind a box. Out of memory, it is let go.
    pub(crate) fn new(alloc: Global, making: Connecting<L>) -> Result<BoxedMaking<L>, NoMemory>
        ensures { IfOk result (λ b. b ≡ making) }
    {
        Ok(BoxedMaking {
            inner: Box::new(alloc, making)?,
        })
    }
}
