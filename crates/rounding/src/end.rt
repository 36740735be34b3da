ghost use Rattle.std.specs.Prelude.{◌≡◌, ◌*◌, ◌<◌, ◌≤◌};

use crate::radix::Radix;
use std::alloc::AllocError;
use std::marker::PhantomData;

/// An end of an enclosure: `digits` times the base to `exponent`, over the base to `BIAS`.
///
/// It is canonical: zero, or a full significand, from `FULL` up to `FULL` times the base. So equal ends have equal
/// digits, and the order of ends is that of their exponents and then their digits.
pub struct End<R: Radix> {
    pub digits: u32,
    pub exponent: u32,
    pub radix: PhantomData<R>,
    ghost few: { digits < R.FULL * R.BASE },
    ghost low: { exponent ≤ 2 * R.BIAS },
    ghost full: { (0 < digits → R.FULL ≤ digits) },
    ghost zero: { (digits ≡ 0 → exponent ≡ 0) },
}

// By hand, since a derive refuses ghost fields in a struct with a type parameter. There is no Ord: a derived one would
// ask for an order of radices, and `at_most` says what the order means.
impl<R: Radix> Clone for End<R> {
    ghost is_clone = { λ x y. x ≡ y };

    ghost is_infallible = { λ x. Unit {0} };

    fn clone(&self) -> Result<Self, AllocError> {
        Ok(*self)
    }
}

impl<R: Radix> Copy for End<R> {}

// An end holds nothing of its radix, so it crosses threads whatever R is: the check proves it of the fields.
unsafe impl<R: Radix> Send for End<R> {}

unsafe impl<R: Radix> Sync for End<R> {}
