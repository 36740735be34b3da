ghost use Rattle.std.specs.Prelude.{map, ◌≡◌, ℕ, ◌+◌, ◌-◌, ◌*◌, ◌^◌, ◌<◌, ◌≤◌, max, length, slice_index, MatchOption, HoldsAt};
ghost use Rattle.std.specs.List.{AllWithin};
ghost use Rattle.fraction.specs.Ratio.{value};
ghost use Rattle.lookups.specs.Cell.{Finds, Passed, Reached};

use crate::cell::Cell;
use fraction::Ratio;
use records::Point;

/// What stands at a place of an axis.
pub trait Placed: Copy {
    ghost spot: { Self → ℕ };

    fn place(&self) -> u64
        ensures { result ≡ spot self.now };
}

impl Placed for u64 {
    ghost spot = { λ x. x };

    fn place(&self) -> u64 {
        *self
    }
}

impl Placed for Point {
    ghost spot = { λ p. p.x };

    fn place(&self) -> u64 {
        self.x
    }
}

// The first of the points that `at` does not lie past. A search from the first and no halving: an axis has at most
// eight points, and halving would ask of the callers that they rise. That the denominator is a word is asked here, in
// `cell_of` and in `curve_value`: a type for it would be made of each operand for this alone.
fn first_reached<P: Placed>(points: &[P], at: Ratio) -> Option<usize>
    requires { at.den < 2 ^ 64 }
    ensures { MatchOption result
        (AllWithin (Passed P.spot (value at)) points.now 0 (length points.now))
        (λ i. (i < length points.now) × HoldsAt (Reached P.spot (value at)) points.now i × AllWithin (Passed P.spot (value at)) points.now 0 i) }
{
    points
        .iter()
        .position(|point| at.num <= point.place() as u128 * at.den)
}

/// The cell of the points that `at` falls into, level beyond their ends.
pub fn cell_of<P: Placed>(points: &[P], at: Ratio) -> Cell
    requires some { 1 ≤ length points.now }
    requires at { at.den < 2 ^ 64 }
    ensures value { Finds (map P.spot points.now) (value at) result }
    ensures first { result.first < length points.now }
    ensures second { result.second < length points.now }
    ensures weights { result.after + result.before ≤ max 1 (slice_index (map P.spot points.now) result.second * at.den) }
{
    match first_reached(points, at) {
        None => Cell::level(points.len() - 1),
        Some(0) => Cell::level(0),
        Some(i) => {
            let low = points[i - 1].place() as u128 * at.den;
            let high = points[i].place() as u128 * at.den;
            Cell::between(i, low, high, at.num)
        }
    }
}

impl Cell {
    // At a point.
    fn level(i: usize) -> Self
        ensures first { result.first ≡ i }
        ensures second { result.second ≡ i }
        ensures after { result.after ≡ 1 }
        ensures before { result.before ≡ 0 }
    {
        Cell {
            first: i,
            second: i,
            after: 1,
            before: 0,
        }
    }

    // Between the points `i - 1` and `i`: the nearer one weighs more.
    fn between(i: usize, low: u128, high: u128, at: u128) -> Self
        requires inner { 1 ≤ i }
        requires past { low < at }
        requires reached { at ≤ high }
        ensures first { result.first ≡ i - 1 }
        ensures second { result.second ≡ i }
        ensures after { result.after ≡ high - at }
        ensures before { result.before ≡ at - low }
    {
        Cell {
            first: i - 1,
            second: i,
            after: high - at,
            before: at - low,
        }
    }

    /// The sum of the two values, each times its weight.
    pub fn weigh(self, first: u128, second: u128) -> u128
        requires { first * self.after + second * self.before < 2 ^ 128 }
        ensures { result ≡ first * self.after + second * self.before }
    {
        first * self.after + second * self.before
    }
}
