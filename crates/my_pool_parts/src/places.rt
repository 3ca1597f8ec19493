//! Places by number, the one that was put last first.
//!
//! They are nodes of a map, each with the numbers of its neighbours, so that putting or taking out one looks at a few
//! nodes, however many there are. What the map compares goes down one path of its tree.

ghost use Rattle.std.specs.Prelude.{◌≡◌, [], ◌∷◌, IsSome, None, OnOk, OnErr, nat_eq, IfOk};
ghost use Rattle.my_pool_parts.specs.Arrived.{counted};
ghost use Rattle.my_pool_parts.specs.Next.{least_at};
ghost use Rattle.std.specs.Map.{lookup, remove_entry};

use crate::connection::{Connection, Place, PlaceKind, is_at};
use crate::node::{Node, set_newer, unlink};
use my_frame::NoMemory;
use std::alloc::Global;
use std::collections::BTreeMap;
use std::marker::Model;

/// The place of each number; a number that may come has none yet.
#[derive(Drop)]
pub(crate) struct Places {
    nodes: BTreeMap<u64, Node>,
    /// The number that was put last.
    newest: Option<u64>,
}

impl Model for Places {
    ghost use Rattle.std.specs.Prelude.{ℕ, List, Option};
    ghost use Rattle.my_pool_parts.specs.declared.connection.Place.{Place};
    ghost use Rattle.my_pool_parts.specs.Linked.{in_order, IsLinked};

    ghost Value = { List (ℕ × Option Place) };

    ghost view = { λ p. in_order p.nodes.entries p.newest };

    ghost invariant = { λ p. IsLinked p.nodes.entries p.newest (in_order p.nodes.entries p.newest) };
}

impl Places {
    /// No number.
    pub(crate) fn new(alloc: Global) -> Places
        ensures { result ≡ [] }
    {
        Places {
            nodes: BTreeMap::new(alloc),
            newest: None,
        }
    }

    /// What stands at a number.
    pub(crate) fn peek(&self, number: u64) -> Option<Option<Place>>
        ensures { result ≡ lookup (nat_eq number) self.now }
    {
        match self.nodes.get(&number) {
            Some(node) => Some(node.place),
            None => None,
        }
    }

    /// Something else stands at a number, which goes first. Where it is first already, its neighbours stay.
    pub(crate) fn put(&mut self, number: u64, place: Option<Place>)
        requires { IsSome (lookup (nat_eq number) self.old) }
        ensures { self.new ≡ (number, place) ∷ remove_entry (nat_eq number) self.old }
    {
        let node = self.nodes.get_mut(&number).unwrap();
        let old = *node;
        let older = old.newest_without(self.newest);
        *node = Node {
            place,
            older,
            newer: None,
        };
        if let Some(newest) = self.newest
            && newest == number
        {
            return;
        }
        unlink(&mut self.nodes, &old);
        set_newer(&mut self.nodes, older, Some(number));
        self.newest = Some(number);
    }

    /// Nothing stands at a number.
    pub(crate) fn pop(&mut self, number: u64)
        ensures { self.new ≡ remove_entry (nat_eq number) self.old }
    {
        let Some(old) = self.nodes.remove(&number) else {
            return;
        };
        self.newest = old.newest_without(self.newest);
        unlink(&mut self.nodes, &old);
    }

    /// One more number, at which nothing stands yet. Out of memory, nothing changes.
    pub(crate) fn insert(&mut self, number: u64) -> Result<(), NoMemory>
        requires { lookup (nat_eq number) self.old ≡ None }
        ensures ok { OnOk result (self.new ≡ (number, None) ∷ self.old) }
        ensures err { OnErr result (self.new ≡ self.old) }
    {
        let node = Node {
            place: None,
            older: self.newest,
            newer: None,
        };
        self.nodes.insert(number, node)?;
        set_newer(&mut self.nodes, self.newest, Some(number));
        self.newest = Some(number);
        Ok(())
    }

    /// The connections, the one that was put first first.
    pub(crate) fn list(&self, alloc: Global) -> Result<Vec<Connection>, NoMemory>
        ensures { IfOk result (λ all. all.items ≡ counted self.now) }
    {
        let mut all = Vec::new(alloc);
        let mut at = self.newest;
        while let Some(number) = at {
            let node = self.nodes[&number];
            if let Some(place) = node.place {
                all.push(Connection { number, place })?;
            }
            at = node.older;
        }
        all.reverse();
        Ok(all)
    }

    /// The least number, not below `from`, of a connection at a place of a kind.
    pub(crate) fn next_at(&self, kind: PlaceKind, from: u64) -> Option<u64>
        ensures { result ≡ least_at kind from None (counted self.now) }
    {
        for (number, node) in self.nodes.range(from..) {
            if is_at(&node.place, kind) {
                return Some(*number);
            }
        }
        None
    }
}
