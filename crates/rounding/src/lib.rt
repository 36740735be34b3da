//! The ends of enclosures: few digits at an exponent, with every result rounded down or up from the exact one.
#![tactic(auto)]

mod end;
mod radix;
mod rounding;

ghost use Rattle.std.specs.Prelude.{◌≡◌, ℕ, ◌+◌, ◌-◌, ◌*◌, ◌^◌, ◌<◌, ◌≤◌, Some, nat_le};
ghost use Rattle.enclosure.specs.Readings.{readable};
ghost use Rattle.rounding.specs.Cut.{cut, turned};
ghost use Rattle.rounding.specs.Placed.{Stands, Scales};
ghost use Rattle.rounding.specs.Rounded.{divided, rounded, units, whole_end, zero_end};

pub use end::End;
pub use radix::Radix;
pub use rounding::Rounding;
use std::marker::PhantomData;

// the largest whole number that becomes an end, and the largest that is read out of one
const WHOLE_MOST: u64 = 1 << 62;

const READ_MOST: u64 = 1_000_000_000_000_000_000;

// Not by div_ceil: with its remainder sums of decimals take 15 in 100 more instructions.
fn cut_off(n: u64, d: u64, toward: Rounding) -> u64
    requires some { 0 < d }
    requires room { n + d < 2 ^ 64 }
    ensures { result ≡ cut toward n d }
{
    match toward {
        Rounding::Down => n / d,
        Rounding::Up => (n + (d - 1)) / d,
    }
}

fn opposite(toward: Rounding) -> Rounding
    ensures { result ≡ turned toward }
{
    match toward {
        Rounding::Down => Rounding::Up,
        Rounding::Up => Rounding::Down,
    }
}

impl<R: Radix> End<R> {
    /// The end that stands for 0.
    pub fn zero() -> Self
        ensures { result ≡ zero_end }
    {
        End {
            digits: 0,
            exponent: 0,
            radix: PhantomData,
        }
    }

    // What the digits of a significand stay below.
    fn limit() -> u64
        ensures { result ≡ R.FULL * R.BASE }
    {
        R::FULL * R::BASE
    }

    // What a quantity above 0 and below the least end above 0 is rounded to.
    fn slightest(toward: Rounding) -> Self
        ensures { (N u : ℕ) → 0 < u → 0 < N → N < R.FULL * u → Some result ≡ rounded toward N u }
    {
        if let Rounding::Down = toward {
            return Self::zero();
        }
        End {
            digits: R::FULL as u32,
            exponent: 0,
            radix: PhantomData,
        }
    }

    // The bounds of digits and exponents stand in the clauses: they differ from step to step, and a type for each would
    // be made and taken apart at once.
    fn at(m: u64, e: u64) -> Option<Self>
        requires full { R.FULL ≤ m }
        requires few { m < R.FULL * R.BASE }
        ensures { (t : Rounding) (N u : ℕ) → Stands R.BASE R.FULL t N u m e → result ≡ rounded t N u }
    {
        if e > 2 * R::BIAS {
            return None;
        }
        Some(End {
            digits: m as u32,
            exponent: e as u32,
            radix: PhantomData,
        })
    }

    // A carry of one digit may be due.
    fn placed(m: u64, e: u64, toward: Rounding) -> Option<Self>
        requires full { R.FULL ≤ m }
        requires few { m ≤ (R.FULL * R.BASE - 1) * R.BASE }
        requires low { e < 2 ^ 16 }
        ensures { (N u : ℕ) → Stands R.BASE R.FULL toward N u m e → result ≡ rounded toward N u }
    {
        if m < Self::limit() {
            return Self::at(m, e);
        }
        Self::at(cut_off(m, R::BASE, toward), e + 1)
    }

    // A quantity at the exponent `from`, counted from the exponent `floor`.
    fn scaled(m: u64, from: u64, floor: u64, toward: Rounding) -> Option<Self>
        requires full { R.FULL ≤ m }
        requires few { m ≤ R.FULL * R.BASE }
        requires low { from < 2 ^ 16 }
        ensures { (N u P Q : ℕ) → Scales R.BASE R.FULL toward N u P Q m from floor → result ≡ rounded toward N u }
    {
        if from < floor {
            return Some(Self::slightest(toward));
        }
        Self::placed(m, from - floor, toward)
    }

    /// The product.
    pub fn mul(self, other: Self, toward: Rounding) -> Option<Self>
        ensures { result ≡ rounded toward (units self * units other) (R.BASE ^ R.BIAS) }
    {
        let product = self.digits as u64 * other.digits as u64;
        if product == 0 {
            return Some(Self::zero());
        }
        let exponent = self.exponent as u64 + other.exponent as u64 + R::PLACES;
        let limit = Self::limit();
        let full = R::FULL;
        if product < limit * full {
            return Self::scaled(cut_off(product, full, toward), exponent, R::BIAS, toward);
        }
        Self::scaled(
            cut_off(product, limit, toward),
            exponent + 1,
            R::BIAS,
            toward,
        )
    }

    /// The quotient, or none where the divisor is 0.
    pub fn div(self, other: Self, toward: Rounding) -> Option<Self>
        ensures { result ≡ divided toward (units self) (units other) }
    {
        if other.digits == 0 {
            return None;
        }
        if self.digits == 0 {
            return Some(Self::zero());
        }
        let top = self.digits as u64;
        let bottom = other.digits as u64;
        let from = self.exponent as u64 + R::BIAS;
        let floor = other.exponent as u64 + R::PLACES;
        if top < bottom {
            return Self::scaled(
                cut_off(top * Self::limit(), bottom, toward),
                from,
                floor + 1,
                toward,
            );
        }
        Self::scaled(cut_off(top * R::FULL, bottom, toward), from, floor, toward)
    }

    // `step` digits off, where as many are to go; `unit` is the base to `step`.
    fn stage(n: u64, k: u64, step: u64, unit: u64, toward: Rounding) -> (u64, u64)
        requires power { unit ≡ R.BASE ^ step }
        requires room { n + unit < 2 ^ 64 }
        ensures same { cut toward result.0 (R.BASE ^ result.1) ≡ cut toward n (R.BASE ^ k) }
        ensures less { result.0 ≤ n }
        ensures few { k < 2 * step → result.1 < step }
    {
        if k < step {
            return (n, k);
        }
        (cut_off(n, unit, toward), k - step)
    }

    // `n` without its last `k` digits: in stages, so that each division is by a constant.
    fn dropped(n: u64, k: u64, toward: Rounding) -> u64
        requires { n < R.FULL * R.BASE }
        ensures { result ≡ cut toward n (R.BASE ^ k) }
    {
        if k >= 32 {
            return cut_off(n, Self::limit(), toward);
        }
        let b1 = R::BASE;
        let b2 = b1 * b1;
        let b4 = b2 * b2;
        let b8 = b4 * b4;
        let b16 = b8 * b8;
        let (n, k) = Self::stage(n, k, 16, b16, toward);
        let (n, k) = Self::stage(n, k, 8, b8, toward);
        let (n, k) = Self::stage(n, k, 4, b4, toward);
        let (n, k) = Self::stage(n, k, 2, b2, toward);
        let (n, _) = Self::stage(n, k, 1, b1, toward);
        n
    }

    fn sum(large: Self, small: Self, toward: Rounding) -> Option<Self>
        requires { small.exponent ≤ large.exponent }
        ensures { result ≡ rounded toward (units large + units small) 1 }
    {
        let gap = large.exponent as u64 - small.exponent as u64;
        let m = large.digits as u64 + Self::dropped(small.digits as u64, gap, toward);
        if m == 0 {
            return Some(Self::zero());
        }
        Self::placed(m, large.exponent as u64, toward)
    }

    /// The sum.
    pub fn add(self, other: Self, toward: Rounding) -> Option<Self>
        ensures { result ≡ rounded toward (units self + units other) 1 }
    {
        if self.exponent < other.exponent {
            return Self::sum(other, self, toward);
        }
        Self::sum(self, other, toward)
    }

    /// Whether this end is at most the other.
    pub fn at_most(self, other: Self) -> bool
        ensures { result ≡ nat_le (units self) (units other) }
    {
        (self.exponent, self.digits) <= (other.exponent, other.digits)
    }

    // The same quantity with more digits, until they are full or the exponent is 0. Not by `ilog` and `pow`: that takes
    // half as many instructions again for a judgement in decimals.
    fn raised(m: u64, e: u64) -> (u64, u64)
        requires { m ≤ (R.FULL * R.BASE - 1) * R.BASE }
        ensures same { result.0 * R.BASE ^ result.1 ≡ m * R.BASE ^ e }
        ensures low { result.1 ≤ e }
        ensures few { result.0 ≤ (R.FULL * R.BASE - 1) * R.BASE }
        ensures done { result.0 < R.FULL → result.1 ≡ 0 }
    {
        let (base, full) = (R::BASE, R::FULL);
        let mut n = m;
        let mut f = e;
        while n < full && f > 0 {
            n *= base;
            f -= 1;
        }
        (n, f)
    }

    // The quantity of `m` times the base to `e` units.
    fn exact(m: u64, e: u64, toward: Rounding) -> Option<Self>
        requires some { 0 < m }
        requires few { m ≤ (R.FULL * R.BASE - 1) * R.BASE }
        requires low { e < 2 ^ 16 }
        ensures { (N : ℕ) → N ≡ m * R.BASE ^ e → result ≡ rounded toward N 1 }
    {
        let (n, f) = Self::raised(m, e);
        if n < R::FULL {
            return Some(Self::slightest(toward));
        }
        Self::placed(n, f, toward)
    }

    /// How far this end exceeds the other, 0 where it does not.
    pub fn excess(self, other: Self, toward: Rounding) -> Option<Self>
        ensures { result ≡ rounded toward (units self - units other) 1 }
    {
        if self.at_most(other) {
            return Some(Self::zero());
        }
        let top = self.digits as u64;
        let rest = other.digits as u64;
        let gap = self.exponent as u64 - other.exponent as u64;
        let base = R::BASE;
        if gap == 0 {
            return Self::exact(top - rest, other.exponent as u64, toward);
        }
        if gap == 1 {
            return Self::exact(top * base - rest, other.exponent as u64, toward);
        }
        let less = Self::dropped(rest, gap - 1, opposite(toward));
        Self::placed(top * base - less, self.exponent as u64 - 1, toward)
    }

    // The digits of `n` that a significand holds, and how many go before them. A `while`, since no logarithm tells how
    // many: rounding up may carry.
    fn shed(n: u64, toward: Rounding) -> (u64, u64)
        requires large { R.FULL * R.BASE ≤ n }
        requires room { n ≤ 2 ^ 62 }
        ensures is { result.0 ≡ cut toward n (R.BASE ^ result.1) }
        ensures full { R.FULL ≤ result.0 }
        ensures few { result.0 < R.FULL * R.BASE }
        ensures fills { (i : ℕ) → i < result.1 → R.FULL * R.BASE ≤ cut toward n (R.BASE ^ i) }
        ensures count { result.1 ≤ n }
    {
        let (base, limit) = (R::BASE, Self::limit());
        let mut m = n;
        let mut k = 0;
        while m >= limit {
            m = cut_off(m, base, toward);
            k += 1;
        }
        (m, k)
    }

    /// The whole number `n`, or none past 2^62.
    pub fn whole(n: u64, toward: Rounding) -> Option<Self>
        ensures { result ≡ whole_end toward n }
    {
        if n > WHOLE_MOST {
            return None;
        }
        if n == 0 {
            return Some(Self::zero());
        }
        if n < Self::limit() {
            return Self::exact(n, R::BIAS, toward);
        }
        let (m, k) = Self::shed(n, toward);
        Self::at(m, R::BIAS + k)
    }

    // `n` with `k` digits more, or none past 10^18.
    fn grown(n: u64, k: u32) -> Option<u64>
        requires { 0 < n }
        ensures { result ≡ readable (n * R.BASE ^ k) }
    {
        let m = n.checked_mul(R::BASE.checked_pow(k)?)?;
        (m <= READ_MOST).then_some(m)
    }

    /// The whole number that this end is rounded to, or none past 10^18.
    pub fn whole_part(self, toward: Rounding) -> Option<u64>
        ensures { result ≡ readable (cut toward (units self) (R.BASE ^ R.BIAS)) }
    {
        let exponent = self.exponent as u64;
        let bias = R::BIAS;
        if exponent < bias {
            return Some(Self::dropped(self.digits as u64, bias - exponent, toward));
        }
        Self::grown(self.digits as u64, self.exponent - bias as u32)
    }
}
