//! Two enclosure arithmetics, one implementation over the radix: binary and decimal.
#![tactic(auto)]

mod radices;
// Named enclosure, it would hide the library.
mod span;

ghost use Rattle.std.specs.Prelude.{◌≡◌, ◌^◌, refl};
ghost use Rattle.rounding.specs.Pairs.{larger_end, smaller_end};
ghost use Rattle.rounding.specs.Rounded.{or_zero, Ordered};
ghost use Rattle.digits.specs.Canonical.{EndsDecide};
ghost use Rattle.digits.specs.Laws.{sound_of};
ghost use Rattle.digits.specs.Meaning.{model_of};
ghost use Rattle.digits.specs.Named.{IsOfDigits};

use enclosure::{Arithmetic, Comparison, ReadOut};
pub use radices::{Binary, Decimal, Ten, Two};
use rounding::Rounding::{Down, Up};
use rounding::{End, Radix};
pub use span::Enclosure;

impl<R: Radix> Enclosure<R> {
    // A lower end past the largest tells nothing.
    fn spanning(lower: Option<End<R>>, upper: Option<End<R>>) -> Self
        requires { Ordered (or_zero lower) upper }
        ensures lower { result.lower ≡ or_zero lower }
        ensures upper { result.upper ≡ upper }
    {
        Enclosure {
            lower: lower.unwrap_or(End::zero()),
            upper,
        }
    }
}

impl<R: Radix> Arithmetic for Enclosure<R> {
    ghost FINENESS = { R.FULL };

    const FINENESS: u64 = R::FULL;

    ghost model = { model_of };

    ghost stated_fineness = { refl };

    ghost sound = { sound_of R.Radix };

    fn whole(n: u64) -> Self {
        Self::spanning(End::whole(n, Down), End::whole(n, Up))
    }

    // What two bodies below share is the order of the ends; one over the operation would hide which ends it takes.
    fn add(self, other: Self) -> Self {
        Self::spanning(
            self.lower.add(other.lower, Down),
            self.upper.zip(other.upper).and_then(|(x, y)| x.add(y, Up)),
        )
    }

    fn mul(self, other: Self) -> Self {
        Self::spanning(
            self.lower.mul(other.lower, Down),
            self.upper.zip(other.upper).and_then(|(x, y)| x.mul(y, Up)),
        )
    }

    fn div(self, other: Self) -> Self {
        Self::spanning(
            other.upper.and_then(|y| self.lower.div(y, Down)),
            self.upper.and_then(|x| x.div(other.lower, Up)),
        )
    }

    fn excess(self, other: Self) -> Self {
        Self::spanning(
            other.upper.and_then(|y| self.lower.excess(y, Down)),
            self.upper.and_then(|x| x.excess(other.lower, Up)),
        )
    }

    fn smaller(self, other: Self) -> Self {
        Enclosure {
            lower: smaller_end(self.lower, other.lower),
            upper: self
                .upper
                .zip(other.upper)
                .map(|(x, y)| smaller_end(x, y))
                .or(self.upper)
                .or(other.upper),
        }
    }

    fn larger(self, other: Self) -> Self {
        Enclosure {
            lower: larger_end(self.lower, other.lower),
            upper: self.upper.zip(other.upper).map(|(x, y)| larger_end(x, y)),
        }
    }

    fn at_most(self, other: Self) -> Comparison {
        if self.upper.is_some_and(|end| end.at_most(other.lower)) {
            return Comparison::Yes;
        }
        if other.upper.is_some_and(|end| !self.lower.at_most(end)) {
            return Comparison::No;
        }
        Comparison::Unknown
    }
}

impl<R: Radix> ReadOut for Enclosure<R> {
    fn floor(self) -> Option<u64> {
        self.lower.whole_part(Down)
    }

    fn ceiling(self) -> Option<u64> {
        self.upper?.whole_part(Up)
    }
}

// Ends have no Ord, and so no `min` and no `max`.
fn smaller_end<R: Radix>(a: End<R>, b: End<R>) -> End<R>
    ensures { result ≡ smaller_end a b }
{
    if a.at_most(b) { a } else { b }
}

fn larger_end<R: Radix>(a: End<R>, b: End<R>) -> End<R>
    ensures { result ≡ larger_end a b }
{
    if a.at_most(b) { b } else { a }
}

/// Enclosures with equal ends are equal values, so that equal operands are those with equal ends.
pub fn ends_decide<R: Radix>()
    ensures { EndsDecide R.Radix }
{}

/// `Binary` has 31 binary digits and `Decimal` nine decimal ones; so their finenesses are 2^30 and 10^8.
pub fn arithmetics_are_as_named()
    ensures binary { IsOfDigits ⟦<Binary as Arithmetic>⟧.model 31 2 (2 ^ 30) 180 }
    ensures decimal { IsOfDigits ⟦<Decimal as Arithmetic>⟧.model 9 10 (10 ^ 8) 52 }
{}
