// A list that only contracts read.
ghost use Rattle.std.specs.Prelude.{◌≡◌, List, [], ◌∷◌, ◌++◌};
ghost use Rattle.std.specs.Borrow.{ftrue};

use std::marker::{Model, PhantomData};

/// What values were, the oldest first. Contracts read them as `items`.
#[derive(Drop)]
pub struct Trace<T> {
    of: PhantomData<T>,
    pub ghost items: { List T },
}

impl<T> Model for Trace<T> {
    ghost also_owns = { λ _. ftrue };
}

// It owns nothing.
unsafe impl<T: Send> Send for Trace<T> {}

impl<T> Trace<T> {
    /// Of no value.
    pub fn new() -> Trace<T>
        ensures { result.items ≡ [] }
    {
        Trace { of: PhantomData }
    }

    /// With what this value is now behind the others.
    pub fn with(&self, item: &T) -> Trace<T>
        ensures { result.items ≡ self.now.items ++ item.now ∷ [] }
    {
        Trace { of: PhantomData }
    }
}
