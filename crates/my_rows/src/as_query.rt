//! What has the text of a query: texts and bytes, owned, borrowed, boxed or shared.
ghost use Rattle.std.specs.Prelude.{◌≡◌};

use my_frame::{Blob, Text};
use std::borrow::{CowSlice, CowStr};
use std::boxed::{BoxedSlice, BoxedStr};
use std::sync::{ArcSlice, ArcStr};

/// What has the text of a query.
pub trait AsQuery {
    ghost use Rattle.std.specs.Prelude.{ℕ, List};

    /// The bytes of the text.
    ghost text_of: { Self → List ℕ };

    /// The bytes of the text.
    fn as_query(&self) -> &[u8]
        ensures { result.now ≡ text_of self.now };
}

impl<'a> AsQuery for &'a str {
    ghost text_of = { λ q. q.now };

    fn as_query(&self) -> &[u8] {
        self.as_bytes()
    }
}

impl<'a> AsQuery for &'a [u8] {
    ghost text_of = { λ q. q.now };

    fn as_query(&self) -> &[u8] {
        *self
    }
}

impl<'a, Q: AsQuery> AsQuery for &'a Q {
    ghost text_of = { λ q. Q.text_of q.now };

    fn as_query(&self) -> &[u8] {
        Q::as_query(*self)
    }
}

impl AsQuery for String {
    ghost use Rattle.std.specs.Prelude.{string_bytes};

    ghost text_of = { λ q. string_bytes q };

    fn as_query(&self) -> &[u8] {
        self.as_bytes()
    }
}

impl AsQuery for Vec<u8> {
    ghost text_of = { λ q. q.items };

    fn as_query(&self) -> &[u8] {
        self.as_slice()
    }
}

impl AsQuery for Text {
    ghost text_of = { λ q. q };

    fn as_query(&self) -> &[u8] {
        self.as_str().as_bytes()
    }
}

impl AsQuery for Blob {
    ghost text_of = { λ q. q };

    fn as_query(&self) -> &[u8] {
        self.as_slice()
    }
}

impl<'a> AsQuery for CowStr<'a> {
    ghost use Rattle.std.specs.Cow.{cow_str_bytes};

    ghost text_of = { λ q. cow_str_bytes q };

    fn as_query(&self) -> &[u8] {
        self.as_str().as_bytes()
    }
}

impl<'a> AsQuery for CowSlice<'a, u8> {
    ghost use Rattle.std.specs.Cow.{cow_slice_items};

    ghost text_of = { λ q. cow_slice_items q };

    fn as_query(&self) -> &[u8] {
        self.as_slice()
    }
}

impl AsQuery for BoxedStr {
    ghost use Rattle.std.specs.Box.{boxed_str_bytes};

    ghost text_of = { λ q. boxed_str_bytes q };

    fn as_query(&self) -> &[u8] {
        self.as_str().as_bytes()
    }
}

impl AsQuery for BoxedSlice<u8> {
    ghost use Rattle.std.specs.Box.{boxed_slice_items};

    ghost text_of = { λ q. boxed_slice_items q };

    fn as_query(&self) -> &[u8] {
        self.as_slice()
    }
}

impl AsQuery for ArcStr {
    ghost use Rattle.std.specs.Arc.{arc_str_bytes};

    ghost text_of = { λ q. arc_str_bytes q };

    fn as_query(&self) -> &[u8] {
        self.as_str().as_bytes()
    }
}

impl AsQuery for ArcSlice<u8> {
    ghost use Rattle.std.specs.Arc.{arc_slice_items};

    ghost text_of = { λ q. arc_slice_items q };

    fn as_query(&self) -> &[u8] {
        self.as_slice()
    }
}
