//! Rows over my_pool, my_pool_turns and my_pool_requests: a row is an event of an exchange over links in memory, or a
//! call of a request there, with what it returns (`exchanges.rt` and `request_rows.rt` say how it reads). Beside them
//! many calls of requests from a seed, after each of which the pool is looked at whole. This crate has tests alone.
#![tactic(auto)]

#[cfg(test)]
mod asked;
#[cfg(test)]
mod bell;
#[cfg(test)]
mod calls;
#[cfg(test)]
mod exchange;
#[cfg(test)]
mod exchanges;
#[cfg(test)]
mod leases;
#[cfg(test)]
mod links;
#[cfg(test)]
mod queries;
#[cfg(test)]
mod request_rows;
#[cfg(test)]
mod requests;
#[cfg(test)]
mod table;
#[cfg(test)]
mod tapes;
#[cfg(test)]
mod views;
