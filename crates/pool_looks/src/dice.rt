//! Random numbers.

/// Random numbers, one after the other.
#[derive(Drop)]
pub struct Dice(u64);

impl Dice {
    /// The numbers that begin with a seed.
    pub fn new(seed: u64) -> Dice {
        Dice(seed)
    }

    /// The next one, below a bound where that isn't 0.
    pub fn below(&mut self, bound: u64) -> u64 {
        self.0 = self
            .0
            .wrapping_mul(6364136223846793005)
            .wrapping_add(1442695040888963407);
        if bound == 0 {
            0
        } else {
            (self.0 >> 33) % bound
        }
    }
}
