//! What an enclosure arithmetic is: the operations, the laws that each implementation shows, and reading out.
#![tactic(auto)]

ghost use Rattle.std.specs.Prelude.{◌≡◌, ℕ};
ghost use Rattle.enclosure.specs.Answer.{compared};
ghost use Rattle.enclosure.specs.Model.{Model, Sound};
ghost use Rattle.enclosure.specs.Readings.{read_below, read_above};
ghost use Rattle.enclosure.specs.Formula.{computed, wide_of};
ghost use Rattle.enclosure.specs.Theorems.{FormulasClose, ComparisonsTell, WideNumbersHold, ReadingsBound, LawsCanBeMet};

/// What comparing "at most" answers.
// An Option<bool> has this shape, but would not say which of its three values is which.
#[derive(Clone, Copy, PartialEq, Eq, Debug)]
pub enum Comparison {
    Yes,
    No,
    Unknown,
}

/// An arithmetic on enclosures: each result contains the exact result, and its ends are within 1 / `FINENESS` of it.
pub trait Arithmetic: Copy {
    ghost FINENESS: { ℕ };

    /// The fineness W, from 10^6 to 10^12.
    const FINENESS: u64;

    ghost model: { Model Self };

    /// The whole number `n`; its laws speak of numbers up to 2^62.
    fn whole(n: u64) -> Self
        ensures { result ≡ model.from_whole n };

    fn add(self, other: Self) -> Self
        ensures { result ≡ model.sum self other };

    fn mul(self, other: Self) -> Self
        ensures { result ≡ model.product self other };

    fn div(self, other: Self) -> Self
        ensures { result ≡ model.quotient self other };

    /// How far this exceeds the other, 0 where it does not.
    fn excess(self, other: Self) -> Self
        ensures { result ≡ model.excess self other };

    fn smaller(self, other: Self) -> Self
        ensures { result ≡ model.smaller self other };

    fn larger(self, other: Self) -> Self
        ensures { result ≡ model.larger self other };

    /// Whether this is at most the other.
    fn at_most(self, other: Self) -> Comparison
        ensures { result ≡ compared model self other };

    ghost stated_fineness: { FINENESS ≡ model.fineness };

    ghost sound: { Sound model };
}

/// An arithmetic whose enclosures can be read out in whole numbers.
pub trait ReadOut: Arithmetic {
    /// The whole number below the lower end, or none past 10^18.
    fn floor(self) -> Option<u64>
        ensures { result ≡ read_below (Self.Arithmetic.model.lower self) };

    /// The whole number above the upper end, or none past 10^18.
    fn ceiling(self) -> Option<u64>
        ensures { result ≡ read_above (Self.Arithmetic.model.upper self) };
}

/// The whole number `n`, which past 2^62 is made of parts: high times 2^61, and a low part from 1 to 2^61.
#[tactic(auto, using(crate::proofs::WideNumbers::wide_short, crate::proofs::WideNumbers::wide_step))]
pub fn wide<A: Arithmetic>(n: u128) -> A
    ensures { result ≡ wide_of (computed A.model) n }
{
    if n <= 1 << 62 {
        return A::whole(n as u64);
    }
    let high = (n - 1) / (1 << 61);
    let low = (n - 1) % (1 << 61) + 1;
    wide::<A>(high)
        .mul(A::whole(1 << 61))
        .add(A::whole(low as u64))
}

// The theorems of this crate: each stands on the contract of a function, so that a check asks for its proof.

/// What an arithmetic computes from whole numbers is close to the exact fraction.
pub fn formulas_stay_close<E>()
    ensures { FormulasClose E }
{}

/// Comparing two close enclosures tells how the exact fractions compare.
pub fn comparisons_tell<E>()
    ensures { ComparisonsTell E }
{}

/// A number of up to 128 bits is contained in what `wide` makes of it, and up to 10^35 it is close.
pub fn wide_numbers_hold<E>()
    ensures { WideNumbersHold E }
{}

/// The exact fractions meet the laws, so that the promises are not empty.
#[tactic(auto, using(crate::proofs::Exact::laws_met))]
pub fn laws_can_be_met()
    ensures { LawsCanBeMet }
{}

/// What is read out of an enclosure bounds each number that it contains.
pub fn readings_bound<E>()
    ensures { ReadingsBound E }
{}
