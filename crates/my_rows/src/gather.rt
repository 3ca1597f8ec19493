//! What the rows of a set are gathered into.
ghost use Rattle.std.specs.Prelude.{◌≡◌, IfOk};
ghost use Rattle.my_rows.specs.Gathers.{Collects, Folds, Maps};

use std::alloc::AllocError;

/// What takes in items, one after another.
pub trait Gather<T>: Sized {
    /// It may take in an item.
    ghost ready: { Self → Type 0 };

    /// What it is once it took in an item.
    ghost takes: { Self → T → Self → Type 0 };

    /// Takes in an item.
    fn take(self, item: T) -> Result<Self, AllocError>
        requires { ready self }
        ensures ready { IfOk result ready }
        ensures takes { IfOk result (takes self item) };
}

/// The value so far, and the function that folds.
#[derive(Drop)]
pub struct Folded<U, F> {
    pub value: U,
    pub f: F,
}

impl<T, U, F: FnMut(U, T) -> U> Gather<T> for Folded<U, F> {
    ghost ready = { λ s. F.IsAlwaysCallable s.f };

    ghost takes = { Folds (λ p x y v q. F.step p x y v q) };

    fn take(self, item: T) -> Result<Folded<U, F>, AllocError> {
        let Folded { value, mut f } = self;
        let value = f(value, item);
        Ok(Folded { value, f })
    }
}

/// The items so far.
#[derive(Drop)]
pub struct Collected<T> {
    pub items: Vec<T>,
}

impl<T: Drop> Gather<T> for Collected<T> {
    ghost use Rattle.std.specs.Prelude.{⊤};

    ghost ready = { λ s. ⊤ };

    ghost takes = { Collects };

    fn take(self, item: T) -> Result<Collected<T>, AllocError> {
        let Collected { mut items } = self;
        items.push(item)?;
        Ok(Collected { items })
    }
}

/// What the function returned of the items so far, and the function.
#[derive(Drop)]
pub struct Mapped<U, F> {
    pub items: Vec<U>,
    pub f: F,
}

impl<T, U: Drop, F: FnMut(T) -> U> Gather<T> for Mapped<U, F> {
    ghost ready = { λ s. F.IsAlwaysCallable s.f };

    ghost takes = { Maps (λ p x v q. F.step p x v q) };

    fn take(self, item: T) -> Result<Mapped<U, F>, AllocError> {
        let Mapped { mut items, mut f } = self;
        let made = f(item);
        items.push(made)?;
        Ok(Mapped { items, f })
    }
}
