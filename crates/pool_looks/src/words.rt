//! The words of a row.

use my_pool_core::{Answer, Facts, PollAnswer, PoolEvent, Verdict};

/// What a row gives, and what it wants: the two sides of its `=`.
pub fn sides(row: &str) -> (&str, &str) {
    row.split_once(" = ").unwrap_or((row, ""))
}

/// The first word of a text, and those after it.
pub fn first_word(text: &str) -> (&str, &str) {
    text.split_once(' ').unwrap_or((text, ""))
}

/// How many rows a block has under its first line.
pub fn count_rows(block: &str) -> u64 {
    (block.lines().count() as u64).saturating_sub(1)
}

/// The numbers after the first word of a text. A word that is no number gives the greatest one, and numbers that aren't there are 0.
pub fn numbers_of(text: &str) -> [u64; 6] {
    let mut numbers = [0u64; 6];
    for (index, word) in text.split(' ').skip(1).enumerate() {
        if let Some(number) = numbers.get_mut(index) {
            *number = word.parse::<u64>().unwrap_or(u64::MAX);
        }
    }
    numbers
}

// Whether this word with these numbers is told. Numbers that aren't told are not compared.
fn is_same(told: &str, word: &str, numbers: &[u64]) -> bool {
    let mut rest = numbers;
    for (index, text) in told.split(' ').enumerate() {
        if index == 0 {
            if text != word {
                return false;
            }
        } else {
            let Some((number, others)) = rest.split_first() else {
                return false;
            };
            if text.parse::<u64>() != Ok(*number) {
                return false;
            }
            rest = others;
        }
    }
    true
}

/// Whether a row wants this word with these numbers, after so many comparisons.
pub fn is_wanted(want: &str, word: &str, numbers: &[u64], steps: u64) -> bool {
    match want.split_once(" by") {
        None => is_same(want, word, numbers),
        Some((told, counts)) => {
            let [least, most, ..] = numbers_of(counts);
            least <= steps && steps <= most && is_same(told, word, numbers)
        }
    }
}

/// The event of a word with its numbers.
pub fn event_by(word: &str, first: u64, second: u64, facts: Facts) -> Option<PoolEvent> {
    let event = match word {
        "ask" => PoolEvent::Request,
        "poll" => PoolEvent::PollRequest {
            age: first,
            now: second,
        },
        "cancel" => PoolEvent::Cancel { age: first },
        "ready" => PoolEvent::Ready {
            age: first,
            conn: second,
        },
        "failed" => PoolEvent::Failed {
            age: first,
            conn: second,
        },
        "give" => PoolEvent::GiveBack { conn: first },
        "detach" => PoolEvent::Detach { conn: first },
        "next" => PoolEvent::TakeReturned,
        "decide" => PoolEvent::Decide {
            conn: first,
            facts,
            now: second,
        },
        "done" => PoolEvent::Done {
            conn: first,
            ok: true,
            facts,
            now: second,
        },
        "badly" => PoolEvent::Done {
            conn: first,
            ok: false,
            facts,
            now: second,
        },
        "ttl" => PoolEvent::CheckTtl { now: first },
        "close" => PoolEvent::Close,
        "gone" => PoolEvent::PollDisconnect,
        _ => return None,
    };
    Some(event)
}

/// The event that a row begins with.
pub fn event_of(given: &str) -> Option<PoolEvent> {
    let [first, second, ttl, deadline, ..] = numbers_of(given);
    let facts = Facts {
        link_closed: given.contains("cut"),
        dirty: given.contains("dirty"),
        expired: given.contains("expired"),
        reset: given.contains("reset"),
        last_io: 0,
        ttl: u128::from(ttl),
        deadline: if deadline == u64::MAX {
            None
        } else {
            Some(u128::from(deadline))
        },
    };
    let (word, _) = first_word(given);
    event_by(word, first, second, facts)
}

fn polled(answer: PollAnswer) -> (&'static str, u64, u64) {
    match answer {
        PollAnswer::Wait => ("wait", 0, 0),
        PollAnswer::Take(number) => ("take", number, 0),
        PollAnswer::Dial(number) => ("dial", number, 0),
        PollAnswer::Closed => ("closed", 0, 0),
        PollAnswer::Full { waiting, limit } => ("full", waiting, limit),
    }
}

fn decided(verdict: Verdict) -> &'static str {
    match verdict {
        Verdict::Drop => "drop",
        Verdict::Clean => "clean",
        Verdict::Close => "close",
        Verdict::Reset => "reset",
        Verdict::Keep => "keep",
    }
}

/// An answer as a word with its numbers.
pub fn told(answer: Answer) -> (&'static str, u64, u64) {
    match answer {
        Answer::Done => ("done", 0, 0),
        Answer::Age(age) => (if age == u64::MAX { "last" } else { "age" }, age, 0),
        Answer::Poll(poll) => polled(poll),
        Answer::Returned(None) => ("none", 0, 0),
        Answer::Returned(Some(number)) => ("number", number, 0),
        Answer::Verdict(verdict) => (decided(verdict), 0, 0),
        Answer::Moved(count) => (if count == 0 { "none" } else { "moved" }, count, 0),
        Answer::Gone(gone) => (if gone { "gone" } else { "there" }, 0, 0),
    }
}
