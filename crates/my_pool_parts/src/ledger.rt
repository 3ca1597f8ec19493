//! Counts of the steps that a heap takes.

ghost use Rattle.std.specs.Prelude.{◌≡◌, ℕ, ◌+◌, ◌-◌, ◌^◌, ◌≤◌, min};

/// Something that counts steps.
pub trait Ledger {
    /// How many steps it has counted.
    ghost noted: { Self → ℕ };

    /// Counts a step: at most one more.
    fn step(&mut self)
        ensures { noted self.new ≤ noted self.old + 1 };
}

/// A ledger that counts nothing and costs nothing.
#[derive(Clone, Copy)]
pub struct Uncounted;

impl Ledger for Uncounted {
    ghost noted = { λ _. 0 };

    fn step(&mut self) {}
}

/// A ledger that counts. At the greatest value of its type the count stays.
#[derive(Clone, Copy)]
pub struct Counted(u64);

impl Counted {
    /// No step was counted yet.
    pub fn new() -> Counted
        ensures { result.0 ≡ 0 }
    {
        Counted(0)
    }

    /// How many steps were counted.
    pub fn count(&self) -> u64
        ensures { result ≡ self.now.0 }
    {
        self.0
    }
}

impl Ledger for Counted {
    ghost noted = { λ s. s.0 };

    fn step(&mut self)
        ensures { self.new.0 ≡ min (self.old.0 + 1) (2 ^ 64 - 1) }
    {
        self.0 = self.0.saturating_add(1);
    }
}
