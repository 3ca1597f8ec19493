//! Where the reading of a connection stands, beside the bytes that were sent.

ghost use Rattle.std.specs.Prelude.{◌≡◌, ◌≤◌, ◌&&◌, IfOk, OnOk, drop, length, take};
ghost use Rattle.std.specs.Bool.{Decides};
ghost use Rattle.my_reading.specs.Place.{begins_with, first_place};
ghost use Rattle.my_judge.specs.Courses.{CourseIs};
ghost use Rattle.my_judge.specs.Stands.{IsAt, IsSomewhere, Settles, with_bytes};

mod ending;

pub use ending::{is_same_error, is_same_row};
use my_frame::NoMemory;
use my_grammar::{Login, Queue};
use my_machine::{Progress, Stop};
use my_reading::Call;
use std::alloc::Global;

/// Where the reading stands.
#[derive(Drop)]
pub struct Stand {
    /// Where it stands, had the bytes been sent that the exchanges say.
    pub machine: my_machine::Stand,
    /// All bytes that were sent.
    pub sent: Queue,
    /// How many of them the exchanges have said.
    pub settled: usize,
    /// Whether these are what the exchanges say.
    pub right: bool,
}

fn are_same(a: &[u8], b: &[u8]) -> bool
    ensures { Decides result (a.now ≡ b.now) }
{
    a == b
}

impl Stand {
    /// Before the first call.
    pub fn first(alloc: Global, login: &Login) -> Result<Stand, NoMemory>
        ensures { IfOk result (λ s. IsAt login.now (first_place login.now) s) }
    {
        Ok(Stand {
            machine: my_machine::Stand::first(alloc, login)?,
            sent: Queue::new(alloc),
            settled: 0,
            right: true,
        })
    }

    /// Bytes were sent and received.
    pub fn add_bytes(&mut self, sent: &[u8], taken: &[u8]) -> Result<(), NoMemory>
        ensures { OnOk result (self.new ≡ with_bytes sent.now taken.now self.old) }
    {
        self.sent.push(sent)?;
        self.machine.take(taken)
    }

    // The bytes that were sent and that the exchanges haven't said yet.
    fn ahead(&self) -> &[u8]
        ensures { result.now ≡ drop self.now.settled self.now.sent }
    {
        let start = self.settled.min(self.sent.len());
        let (_, ahead) = self.sent.as_slice().split_at(start);
        ahead
    }

    // Whether the first `count` of them are those that are owed.
    fn is_paid(&self, count: usize) -> bool
        requires ahead { count ≤ length (drop self.now.settled self.now.sent) }
        requires owed { count ≤ length self.now.machine.owed }
        ensures { let s = self.now in
            Decides result (take count (drop s.settled s.sent) ≡ take count s.machine.owed) }
    {
        let (sent, _) = self.ahead().split_at(count);
        let (owed, _) = self.machine.owed.as_slice().split_at(count);
        are_same(sent, owed)
    }

    // Bytes that are owed were sent, where there are any. Returns how many.
    fn settle(&mut self) -> usize
        requires { self.old.settled ≤ length self.old.sent }
        ensures { Settles self.old result self.new }
    {
        let ahead = self.sent.len() - self.settled;
        let count = ahead.min(self.machine.owed.len());
        let right = self.is_paid(count);
        self.right &= right;
        self.settled += count;
        self.machine.sent(count);
        count
    }

    /// Where the call stops, over the bytes that were sent and received.
    pub fn course(&mut self, alloc: Global, login: &Login, call: &Call) -> Result<Stop, NoMemory>
        requires { IsSomewhere login.now self.old }
        ensures { IfOk result (λ stop. CourseIs login.now call.now self.old stop self.new) }
    {
        let mut progress = Progress::first();
        'owed: loop {
            match progress.run(alloc, login, call, &mut self.machine)? {
                Stop::Owes => {
                    if self.settle() == 0 {
                        return Ok(Stop::Owes);
                    }
                }
                Stop::Awaits => return Ok(Stop::Awaits),
                Stop::Returns(ending) => return Ok(Stop::Returns(ending)),
            }
        }
    }

    /// Whether what was sent is a beginning of what the client says.
    pub fn is_sent_right(&self) -> bool
        ensures { let s = self.now in
            result ≡ s.right && begins_with s.machine.owed (drop s.settled s.sent) }
    {
        self.right && self.machine.owed.as_slice().starts_with(self.ahead())
    }
}
