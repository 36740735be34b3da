ghost use Rattle.std.specs.Prelude.{◌≡◌, ◌<◌, ◌≤◌, [], ◌∷◌, ◌++◌, length};

use std::alloc::AllocError;

// Of our own, since the records are Copy and an `ArrayVec` is not.
/// A list of up to `N` items, in place.
pub struct ShortList<T: Copy, const N: usize> {
    held: [T; N],
    count: usize,
    ghost few: { count ≤ N },
}

// By hand: of a generic struct with a ghost field, Clone cannot be derived.
impl<T: Copy, const N: usize> Clone for ShortList<T, N> {
    ghost is_clone = { λ x y. x ≡ y };

    ghost is_infallible = { λ x. Unit {0} };

    fn clone(&self) -> Result<Self, AllocError> {
        Ok(*self)
    }
}

impl<T: Copy, const N: usize> Copy for ShortList<T, N> {}

impl<T: Copy, const N: usize> ShortList<T, N> {
    ghost use Rattle.records.specs.ShortList.{in_use};

    /// No items yet.
    pub fn new() -> Self
    where
        T: Default,
        ensures { in_use result ≡ [] }
    {
        ShortList {
            held: [T::default(); N],
            count: 0,
        }
    }

    pub fn from_slice(items: &[T]) -> Self
    where
        T: Default,
        requires { length items.now ≤ N }
        ensures { in_use result ≡ items.now }
    {
        let mut held = [T::default(); N];
        held[..items.len()].copy_from_slice(items);
        ShortList {
            held,
            count: items.len(),
        }
    }

    pub fn push(&mut self, item: T)
        requires { length (in_use self.old) < N }
        ensures { in_use self.new ≡ in_use self.old ++ item ∷ [] }
    {
        self.held[self.count] = item;
        self.count += 1;
    }

    pub fn as_slice(&self) -> &[T]
        ensures { result.now ≡ in_use self.now }
    {
        &self.held[..self.count]
    }
}
