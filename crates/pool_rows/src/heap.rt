//! Rows of heaps, and many pushes, removals and pops beside a scanned list.

use crate::rows::HEAP;
use my_pool_parts::{Counted, Entry, WaitHeap};
use pool_looks::{Dice, first_word, is_wanted, numbers_of, sides};
use std::test::Fail;

const SLOTS: usize = 100;

// What a heap says to a word; `no` where it may not be asked.
fn acts(
    heap: &mut WaitHeap,
    word: &str,
    slot: usize,
    age: u64,
    steps: &mut Counted,
) -> (&'static str, u64, u64) {
    match word {
        "push" if slot < heap.slots() && !heap.holds(slot) && !heap.has_age(age) => {
            heap.push(slot, age, steps);
            ("done", 0, 0)
        }
        "remove" if heap.holds(slot) => {
            heap.remove(slot, steps);
            ("done", 0, 0)
        }
        "pop" => match heap.pop_least(steps) {
            Some(entry) => ("slot", entry.slot as u64, entry.age),
            None => ("none", 0, 0),
        },
        "least" => match heap.least() {
            Some(age) => ("age", age, 0),
            None => ("none", 0, 0),
        },
        "len" => ("number", heap.len() as u64, 0),
        _ => ("no", 0, 0),
    }
}

fn goes(heap: &mut WaitHeap, row: &str) -> bool {
    let (given, want) = sides(row);
    let (word, _) = first_word(given);
    let [slot, age, ..] = numbers_of(given);
    let mut steps = Counted::new();
    let (told, first, second) = acts(heap, word, slot as usize, age, &mut steps);
    is_wanted(want, told, &[first, second], steps.count())
}

// The entry of the least age of a scanned list.
fn scanned_least(list: &[Option<u64>; SLOTS]) -> Option<Entry> {
    let mut least: Option<Entry> = None;
    for (slot, held) in list.iter().enumerate() {
        if let Some(age) = *held {
            let older = match least {
                Some(entry) => age < entry.age,
                None => true,
            };
            if older {
                least = Some(Entry { slot, age });
            }
        }
    }
    least
}

// Whether the least age is a list's, and a pop, a removal or a push does what it does to the list.
fn agrees(
    heap: &mut WaitHeap,
    list: &mut [Option<u64>; SLOTS],
    pops: bool,
    slot: usize,
    age: u64,
) -> bool {
    let least = scanned_least(list);
    if heap.least() != least.map(|entry| entry.age) {
        return false;
    }
    let mut steps = Counted::new();
    if pops {
        if let Some(entry) = least
            && entry.slot < SLOTS
        {
            list[entry.slot] = None;
        }
        return heap.pop_least(&mut steps) == least;
    }
    if slot >= SLOTS {
        return false;
    }
    let word = if list[slot].is_some() {
        "remove"
    } else {
        "push"
    };
    list[slot] = if list[slot].is_some() {
        None
    } else {
        Some(age)
    };
    let (told, _, _) = acts(heap, word, slot, age, &mut steps);
    told == "done"
}

// How many turns are as with a list.
fn count_agreeing(heap: &mut WaitHeap) -> u64 {
    let mut list = [None::<u64>; SLOTS];
    let mut dice = Dice::new(1);
    for turn in 0..5000u64 {
        let pops = dice.below(3) == 0;
        let slot = dice.below(SLOTS as u64) as usize;
        let age = dice
            .below(1000000)
            .saturating_mul(10000)
            .saturating_add(turn);
        if !agrees(heap, &mut list, pops, slot, age) {
            return turn;
        }
    }
    5000
}

#[test]
fn heaps(rt: HostRuntime) -> Result<(), Fail> {
    let mut heap = WaitHeap::new(rt.alloc());
    heap.reserve(SLOTS)?;
    let mut ran = 0u64;
    for row in HEAP.lines() {
        assert!(rt; row.starts_with("# ") || goes(&mut heap, row), "{row}");
        ran = ran.saturating_add(u64::from(!row.starts_with("# ")));
    }
    assert!(rt; ran == 40 && count_agreeing(&mut heap) == 5000);
    println!(rt; "{ran} rows of heaps")?;
    Ok(())
}
