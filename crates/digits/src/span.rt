ghost use Rattle.std.specs.Prelude.{◌≡◌, T};
ghost use Rattle.rounding.specs.Rounded.{in_order};

use rounding::{End, Radix};
use std::alloc::AllocError;

/// A lower end, and an upper end that is no smaller, or no bound.
pub struct Enclosure<R: Radix> {
    pub lower: End<R>,
    pub upper: Option<End<R>>,
    ghost ordered: { T (in_order lower upper) },
}

// By hand, as for `End`.
impl<R: Radix> Clone for Enclosure<R> {
    ghost is_clone = { λ x y. x ≡ y };

    ghost is_infallible = { λ x. Unit {0} };

    fn clone(&self) -> Result<Self, AllocError> {
        Ok(*self)
    }
}

impl<R: Radix> Copy for Enclosure<R> {}
