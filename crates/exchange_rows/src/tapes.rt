//! The tapes that an exchange hands out.

use my_frame::NoMemory;
use my_link::MemLink;
use my_pool::Exchange;
use my_pool_store::{Journal, Wake};
use std::alloc::Global;

/// The last digits of the numbers of the connections whose tapes are handed out, in this order, and how many calls each
/// made, each of the two behind a 1: 101 and 112 where the tape of 1000 has one call, and then that of 1001 two.
pub fn taken_tapes<J: Journal, W: Wake>(
    alloc: Global,
    pool: &mut Exchange<MemLink, J, W>,
) -> Result<(u64, u64), NoMemory> {
    let mut numbers = 1u64;
    let mut calls = 1u64;
    for slot in pool.take_tapes(alloc)? {
        let (number, tape) = slot.open();
        numbers = numbers.saturating_mul(10).saturating_add(number % 10);
        calls = calls
            .saturating_mul(10)
            .saturating_add(tape.calls.len() as u64 % 10);
        drop(tape);
    }
    Ok((numbers, calls))
}
