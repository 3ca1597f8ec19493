//! Lists that options hold.

ghost use Rattle.std.specs.Prelude.{◌≡◌, [], ◌∷◌, map, IfOk, IfErr, string_bytes, option_map, option_copied, unwrap_or};
ghost use Rattle.my_opts_parts.specs.Lists.{pair_bytes, with_attribute};

use my_frame::{Copied, Listed, NoMemory};
use std::alloc::Global;
use std::collections::BTreeMap;
use std::marker::Model;
use std::net::IpAddr;

/// Texts in order, which contracts see as the list of their bytes. They stay `String`s, which getters lend.
#[derive(Drop)]
pub struct Texts {
    texts: Vec<String>,
}

impl Model for Texts {
    ghost use Rattle.std.specs.Prelude.{ℕ, List, map, string_bytes};

    ghost Value = { List (List ℕ) };

    ghost view = { λ t. map string_bytes t.texts.items };
}

impl Copied for Texts {
    fn copy(&self, _alloc: Global) -> Result<Texts, NoMemory> {
        Ok(Texts {
            texts: self.texts.clone()?,
        })
    }
}

impl Texts {
    /// These texts.
    pub fn new(texts: Vec<String>) -> Texts
        ensures { result ≡ map string_bytes texts.items }
    {
        Texts { texts }
    }

    /// The texts as `String`s.
    pub fn as_slice(&self) -> &[String]
        ensures { map string_bytes result.now ≡ self.now }
    {
        self.texts.as_slice()
    }
}

impl PartialEq for Texts {
    ghost use Rattle.std.specs.Prelude.{◌==◌};
    ghost use Rattle.std.specs.Cmp.Lexicographic.{pointwise, nat_list_eq_equiv, lists_equiv};
    ghost use Rattle.std.specs.Cmp;

    ghost eq = { pointwise (pointwise ◌==◌) };

    ghost laws = { Cmp.partial_equiv_from_equiv (lists_equiv nat_list_eq_equiv) };

    fn eq(&self, other: &Texts) -> bool {
        self.texts == other.texts
    }
}

impl Eq for Texts {
    ghost use Rattle.std.specs.Cmp.Lexicographic.{nat_list_eq_equiv, lists_equiv};

    ghost laws = { lists_equiv nat_list_eq_equiv };
}

/// Names with their values in byte order of the names, which contracts see as the list of their
/// bytes.
#[derive(Drop)]
pub struct Attributes {
    pairs: BTreeMap<String, String>,
}

impl Model for Attributes {
    ghost use Rattle.std.specs.Prelude.{ℕ, List, map};
    ghost use Rattle.my_opts_parts.specs.Lists.{pair_bytes};

    ghost Value = { List (List ℕ × List ℕ) };

    ghost view = { λ a. map pair_bytes a.pairs.entries };
}

impl Copied for Attributes {
    fn copy(&self, _alloc: Global) -> Result<Attributes, NoMemory> {
        Ok(Attributes {
            pairs: self.pairs.clone()?,
        })
    }
}

impl Attributes {
    /// These names with their values.
    pub fn new(pairs: BTreeMap<String, String>) -> Attributes
        ensures { result ≡ map pair_bytes pairs.entries }
    {
        Attributes { pairs }
    }

    /// No names.
    pub fn empty(alloc: Global) -> Attributes
        ensures { result ≡ [] }
    {
        Attributes {
            pairs: BTreeMap::new(alloc),
        }
    }

    /// The names with their values as a map.
    pub fn as_map(&self) -> &BTreeMap<String, String>
        ensures { map pair_bytes result.now.entries ≡ self.now }
    {
        &self.pairs
    }

    /// The value at this name, which takes the place of an earlier one.
    pub fn with(mut self, name: String, value: String) -> Result<Attributes, NoMemory>
        ensures { IfOk result (λ a. a ≡ with_attribute self (string_bytes name) (string_bytes value)) }
    {
        match self.pairs.insert(name, value) {
            Ok(_) => Ok(self),
            Err(_) => Err(NoMemory),
        }
    }
}

impl PartialEq for Attributes {
    ghost use Rattle.my_opts_parts.specs.Lists.{same_attributes, same_attributes_laws};
    ghost use Rattle.std.specs.Cmp;

    ghost eq = { same_attributes };

    ghost laws = { Cmp.partial_equiv_from_equiv same_attributes_laws };

    fn eq(&self, other: &Attributes) -> bool {
        self.pairs == other.pairs
    }
}

impl Eq for Attributes {
    ghost use Rattle.my_opts_parts.specs.Lists.{same_attributes_laws};

    ghost laws = { same_attributes_laws };
}

/// The addresses, where there are some.
pub fn list_of(ips: Option<Vec<IpAddr>>) -> Option<Listed<IpAddr>>
    ensures { result ≡ option_map (λ ips. ips.items) ips }
{
    match ips {
        Some(ips) => Some(Listed::from(ips)),
        None => None,
    }
}

/// The names with their values, where there are some.
pub fn attributes_of(pairs: Option<BTreeMap<String, String>>) -> Option<Attributes>
    ensures { result ≡ option_map (λ pairs. map pair_bytes pairs.entries) pairs }
{
    match pairs {
        Some(pairs) => Some(Attributes::new(pairs)),
        None => None,
    }
}

/// The names with their values, and one more.
pub fn with_one(
    alloc: Global,
    attributes: Option<Attributes>,
    name: String,
    value: String,
) -> Result<Attributes, NoMemory>
    ensures { let before = unwrap_or attributes []
        in IfOk result (λ a. a ≡ with_attribute before (string_bytes name) (string_bytes value)) }
{
    match attributes {
        Some(attributes) => attributes.with(name, value),
        None => Attributes::empty(alloc).with(name, value),
    }
}
