//! What is shown of a pool.

ghost use Rattle.std.specs.Prelude.{◌≡◌, ◌++◌, map, IfOk, OnOk};
ghost use Rattle.my_pool_parts.specs.Requests.{is_woken};
ghost use Rattle.my_pool_store.specs.Views.{IsViewOf, age_where, ages_of, place_of, stands};

use my_frame::NoMemory;
use my_pool_core::Core;
use my_pool_parts::{Connection, Place, Request, Standing};
use std::alloc::Global;

/// The connections and requests of a pool.
#[derive(Drop)]
pub struct PoolView {
    /// How many connections are counted.
    pub counted: usize,
    /// The ages of the requests that wait, in rising order.
    pub waiting: Vec<u64>,
    /// The ages of those that were woken and not polled since, in rising order.
    pub woken: Vec<u64>,
    /// Whether the pool is closed.
    pub closed: bool,
    /// The numbers of the counted connections with their places, in the order in which they came to them.
    pub places: Vec<(u64, Place)>,
}

// Whether a request was woken and not polled since.
fn is_woken(request: &Request) -> bool
    ensures { result ≡ is_woken request.now }
{
    matches!(request.standing, Standing::Woken)
}

// Whether a request was woken, or waits.
fn stands(request: &Request, woken: bool) -> bool
    ensures { result ≡ stands woken request.now }
{
    if woken {
        is_woken(request)
    } else {
        request.is_waiting()
    }
}

// The age of a request is added where it was woken, or where it waits.
fn add_age(ages: &mut Vec<u64>, request: &Request, woken: bool) -> Result<(), NoMemory>
    ensures { OnOk result (ages.new.items ≡ ages.old.items ++ age_where woken request.now) }
{
    if stands(request, woken) {
        ages.push(request.age)?;
    }
    Ok(())
}

// The ages of the requests that were woken, or that wait.
fn ages_of(alloc: Global, requests: &[Request], woken: bool) -> Result<Vec<u64>, NoMemory>
    ensures { IfOk result (λ ages. ages.items ≡ ages_of woken requests.now) }
{
    let mut ages = Vec::new(alloc);
    for request in requests {
        add_age(&mut ages, request, woken)?;
    }
    Ok(ages)
}

// The places of connections.
fn places_of(alloc: Global, connections: &[Connection]) -> Result<Vec<(u64, Place)>, NoMemory>
    ensures { IfOk result (λ places. places.items ≡ map place_of connections.now) }
{
    let mut places = Vec::new(alloc);
    for connection in connections {
        places.push((connection.number, connection.place))?;
    }
    Ok(places)
}

impl PoolView {
    /// What is shown of a pool.
    pub fn of(alloc: Global, core: &Core) -> Result<PoolView, NoMemory>
        ensures { IfOk result (λ view. IsViewOf core.now view) }
    {
        let connections = core.connections(alloc)?;
        let requests = core.requests(alloc)?;
        Ok(PoolView {
            counted: connections.len(),
            waiting: ages_of(alloc, &requests, false)?,
            woken: ages_of(alloc, &requests, true)?,
            closed: core.is_closed(),
            places: places_of(alloc, &connections)?,
        })
    }
}
