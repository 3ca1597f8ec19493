//! The live requests as a list that is scanned.

use my_frame::NoMemory;
use my_pool_core::{Answer, PollAnswer, PoolEvent, Verdict};
use my_pool_parts::{Request, Standing};

// The oldest waiting request is woken, or each one.
fn wake(plain: &mut [Request], all: bool) {
    for request in plain.iter_mut() {
        if request.is_waiting() {
            request.standing = Standing::Woken;
            if !all {
                return;
            }
        }
    }
}

// The request of an age gets a standing; where it gets none it ends, but for the one of the last age.
fn put(plain: &mut Vec<Request>, age: u64, standing: Option<Standing>) {
    let mut found = plain.len();
    for (index, request) in plain.iter_mut().enumerate() {
        if request.age == age {
            found = index;
            if let Some(standing) = standing {
                request.waited = request.waited || standing == Standing::Waits;
                request.standing = standing;
            }
        }
    }
    if standing.is_none() && age < u64::MAX && found < plain.len() {
        plain.remove(found);
    }
}

// What the request of an age does; it asks where there is none.
fn standing_of(plain: &[Request], age: u64) -> Option<Standing> {
    for request in plain {
        if request.age == age {
            return Some(request.standing);
        }
    }
    None
}

// A request is asked for, and gets an age.
fn ask(plain: &mut Vec<Request>, age: u64) -> Result<(), NoMemory> {
    if age == u64::MAX {
        wake(plain.as_mut_slice(), true);
    }
    if standing_of(plain.as_slice(), age).is_none() {
        plain.push(Request::asking(age))?;
    }
    Ok(())
}

// A request is polled, with this answer.
fn poll(plain: &mut Vec<Request>, age: u64, answer: PollAnswer) {
    let standing = match answer {
        PollAnswer::Wait => Some(Standing::Waits),
        PollAnswer::Take(number) => Some(Standing::Checks(number)),
        PollAnswer::Dial(number) => Some(Standing::Dials(number)),
        PollAnswer::Closed | PollAnswer::Full { .. } => None,
    };
    put(plain, age, standing);
}

// A request is given up.
fn cancel(plain: &mut Vec<Request>, age: u64) {
    let before = standing_of(plain.as_slice(), age);
    put(plain, age, None);
    if !matches!(before, Some(Standing::Asks | Standing::Waits)) {
        wake(plain.as_mut_slice(), false);
    }
}

// The connection of a request isn't good.
fn fail(plain: &mut Vec<Request>, age: u64) {
    let dials = matches!(standing_of(plain.as_slice(), age), Some(Standing::Dials(_)));
    put(plain, age, if dials { None } else { Some(Standing::Asks) });
    wake(plain.as_mut_slice(), false);
}

/// The list after an event and what it returned.
pub fn follow(plain: &mut Vec<Request>, event: PoolEvent, answer: Answer) -> Result<(), NoMemory> {
    match (event, answer) {
        (PoolEvent::Request, Answer::Age(age)) => ask(plain, age)?,
        (PoolEvent::PollRequest { age, .. }, Answer::Poll(answer)) => poll(plain, age, answer),
        (PoolEvent::Cancel { age }, _) => cancel(plain, age),
        (PoolEvent::Ready { age, .. }, _) => put(plain, age, None),
        (PoolEvent::Failed { age, .. }, _) => fail(plain, age),
        (PoolEvent::Detach { .. }, _)
        | (_, Answer::Verdict(Verdict::Drop))
        | (_, Answer::Verdict(Verdict::Keep)) => wake(plain.as_mut_slice(), false),
        (PoolEvent::Close, _) => wake(plain.as_mut_slice(), true),
        _ => {}
    }
    Ok(())
}
