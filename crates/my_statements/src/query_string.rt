//! The text of a query, which can be shared.

ghost use Rattle.std.specs.Prelude.{◌≡◌, IfOk};
ghost use Rattle.my_statements.specs.Cache.{text_of};

use my_frame::NoMemory;
use std::collections::hash_map::Equivalent;
use std::hash::{Hash, Hasher};
use std::marker::Model;
use std::sync::Arc;

/// The text of a query, which a statement's entry and the index of the cache share.
///
/// Contracts see it as the list of its bytes.
#[derive(Drop)]
pub struct QueryString {
    text: Arc<Vec<u8>>,
}

impl Model for QueryString {
    ghost use Rattle.std.specs.Prelude.{ℕ, List};
    ghost use Rattle.my_statements.specs.Cache.{text_of};

    ghost Value = { List ℕ };

    ghost view = { λ q. text_of q.text };
}

impl QueryString {
    pub fn new(text: Arc<Vec<u8>>) -> QueryString
        ensures { result ≡ text_of text }
    {
        QueryString { text }
    }

    /// Its bytes.
    pub fn as_slice(&self) -> &[u8]
        ensures { result.now ≡ self.now }
    {
        self.text.as_slice()
    }

    /// Another holder of the same text.
    pub fn share(&self) -> Result<QueryString, NoMemory>
        ensures { IfOk result (λ other. other ≡ self.now) }
    {
        Ok(QueryString {
            text: Arc::try_clone(&self.text)?,
        })
    }
}

impl PartialEq for QueryString {
    ghost use Rattle.std.specs.Prelude.{nat_eq};
    ghost use Rattle.std.specs.Cmp.{partial_equiv_from_equiv};
    ghost use Rattle.std.specs.Cmp.Lexicographic.{nat_list_eq_equiv, pointwise};

    ghost eq = { pointwise nat_eq };

    ghost laws = { partial_equiv_from_equiv nat_list_eq_equiv };

    fn eq(&self, other: &QueryString) -> bool {
        self.as_slice() == other.as_slice()
    }
}

impl Eq for QueryString {
    ghost use Rattle.std.specs.Cmp.Lexicographic.{nat_list_eq_equiv};

    ghost laws = { nat_list_eq_equiv };
}

impl Hash for QueryString {
    ghost use Rattle.std.proofs.Common.{ap};
    ghost use Rattle.std.specs.Hash as fed;
    ghost use Rattle.std.specs.Cmp.Lexicographic.{bytes_decides};

    ghost hash_input = { fed.slice fed.u8 };

    ghost respects_eq = { λ x y same. ap (fed.slice fed.u8) ((bytes_decides x y).0 same) };

    fn hash<H: Hasher>(&self, state: &mut H) {
        self.as_slice().hash(state);
    }
}

impl Equivalent<QueryString> for &[u8] {
    ghost use Rattle.std.specs.Prelude.{nat_eq};
    ghost use Rattle.std.proofs.Common.{ap};
    ghost use Rattle.std.specs.Hash as fed;
    ghost use Rattle.std.specs.Cmp.Lexicographic.{bytes_decides, nat_list_eq_equiv, pointwise};

    ghost equivalent = { λ q k. pointwise nat_eq q.now k };

    ghost respects_hash = { λ q k same. ap (fed.slice fed.u8) ((bytes_decides q.now k).0 same) };

    ghost respects_eq = { λ q x y. nat_list_eq_equiv.congr q.now x y };

    fn equivalent(&self, key: &QueryString) -> bool {
        *self == key.as_slice()
    }
}
