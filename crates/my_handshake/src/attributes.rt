//! Connection attributes, by which a client describes itself: pairs of a name and a value.

ghost use Rattle.std.specs.Prelude.{◌≡◌, ◌<◌, ◌≤◌, [], IfOk, IfSome, List, OnOk, OnErr, length, position};
ghost use Rattle.std.specs.List.{position_or_len};
ghost use Rattle.my_handshake.specs.Attributes.{is_before, put_in_order};

use my_frame::{Blob, Copied, Listed, NoMemory};
use std::alloc::Global;
use std::cmp::Ordering;
use std::marker::Model;

/// A name and its value.
#[derive(Drop)]
pub struct Attribute {
    pub key: Blob,
    pub value: Blob,
}

impl Copied for Attribute {
    fn copy(&self, alloc: Global) -> Result<Attribute, NoMemory> {
        Ok(Attribute {
            key: self.key.copy(alloc)?,
            value: self.value.copy(alloc)?,
        })
    }
}

/// Attributes in the byte order of their keys, which contracts see as their list.
#[derive(Drop)]
pub struct Attributes {
    pairs: Listed<Attribute>,
}

impl Model for Attributes {
    ghost use Rattle.std.specs.Prelude.{List};
    ghost use Rattle.my_handshake.specs.declared.attributes.Attribute.{Attribute};

    ghost Value = { List Attribute };

    ghost view = { λ a. a.pairs };

    ghost inverse = { λ pairs. record { pairs = pairs } };
}

fn is_before(key: &[u8], other: &[u8]) -> bool
    ensures { result ≡ is_before key.now other.now }
{
    key.cmp(&other) == Ordering::Less
}

fn greater_of(pairs: &[Attribute], key: &[u8]) -> Option<usize>
    ensures place { result ≡ position (λ p. is_before key.now p.key) pairs.now }
    ensures within { IfSome result (λ k. k < length pairs.now) }
{
    pairs
        .iter()
        .position(|pair| is_before(key, pair.key.as_slice()))
}

// The place of the first pair whose key is greater, or the end.
fn place_of(pairs: &[Attribute], key: &[u8]) -> usize
    ensures place { result ≡ position_or_len (λ p. is_before key.now p.key) pairs.now }
    ensures within { result ≤ length pairs.now }
{
    greater_of(pairs, key).unwrap_or(pairs.len())
}

impl Copied for Attributes {
    fn copy(&self, alloc: Global) -> Result<Attributes, NoMemory> {
        Attributes::copy(self, alloc)
    }
}

impl Attributes {
    /// No attributes.
    pub fn new(alloc: Global) -> Attributes
        ensures { result ≡ [] }
    {
        Attributes {
            pairs: Listed::new(alloc),
        }
    }

    /// Adds a pair, after those whose keys aren't greater.
    pub fn put(&mut self, key: Blob, value: Blob) -> Result<(), NoMemory>
        ensures ok { OnOk result (self.new ≡ put_in_order self.old (record { key = key; value = value })) }
        ensures err { OnErr result (self.new ≡ self.old) }
    {
        let place = place_of(self.pairs.as_slice(), key.as_slice());
        self.pairs.insert(place, Attribute { key, value })
    }

    /// A second value of the same attributes.
    pub fn copy(&self, alloc: Global) -> Result<Attributes, NoMemory>
        ensures { IfOk result (λ a. a ≡ self.now) }
    {
        Ok(Attributes {
            pairs: self.pairs.copy(alloc)?,
        })
    }

    pub fn as_slice(&self) -> &[Attribute]
        ensures { result.now ≡ self.now }
    {
        self.pairs.as_slice()
    }
}
