//! Exact fractions: the definitions that promises are stated in, and ratios of whole numbers for exact decisions.
#![tactic(auto)]

mod ratio;

ghost use Rattle.std.specs.Prelude.{◌≡◌, ◌*◌, ◌<◌};
ghost use Rattle.std.specs.Cmp.{eq_by_cmp_equiv, on_total, partial_equiv_from_equiv, partial_order_from_total};
ghost use Rattle.std.specs.Ordering.{nat_cmp, on, eq_by_cmp, as_partial_cmp};
ghost use Rattle.std.proofs.Common.{rules};
ghost use Rattle.fraction.specs.Ordered.{order_total};
ghost use Rattle.fraction.specs.Ratio.{value, ratio_of, order};

pub use ratio::Ratio;
use std::cmp::Ordering;

impl Ratio {
    /// `num` over `den`, or nothing where `den` is 0.
    pub fn new(num: u128, den: u128) -> Option<Self>
        ensures { result ≡ ratio_of num den }
    {
        if den == 0 {
            return None;
        }
        Some(Ratio { num, den })
    }
}

// Two ratios of one number are equal, whatever their terms, so none of this is derived.
impl Ord for Ratio {
    ghost cmp = { on value order };

    ghost total = { on_total value order_total };

    ghost matches_partial_cmp = { Prim.search rules };

    ghost matches_eq = { Prim.search rules };

    fn cmp(&self, other: &Ratio) -> Ordering {
        compared(self.num, self.den, other.num, other.den)
    }
}

impl PartialOrd for Ratio {
    ghost partial_cmp = { as_partial_cmp (on value order) };

    ghost laws = { partial_order_from_total (on_total value order_total) };

    fn partial_cmp(&self, other: &Ratio) -> Option<Ordering> {
        Some(self.cmp(other))
    }
}

impl PartialEq for Ratio {
    ghost eq = { eq_by_cmp (on value order) };

    ghost laws = { partial_equiv_from_equiv (eq_by_cmp_equiv (on_total value order_total)) };

    fn eq(&self, other: &Ratio) -> bool {
        self.cmp(other).is_eq()
    }
}

impl Eq for Ratio {
    ghost laws = { eq_by_cmp_equiv (on_total value order_total) };
}

// How a / b compares with c / d, with no product that could pass 128 bits: where the whole parts are equal, what is
// left is compared upside down.
fn compared(a: u128, b: u128, c: u128, d: u128) -> Ordering
    requires first { 0 < b }
    requires second { 0 < d }
    ensures { result ≡ nat_cmp (a * d) (c * b) }
{
    let whole = (a / b).cmp(&(c / d));
    if whole.is_ne() {
        return whole;
    }
    let rest = a % b;
    let over = c % d;
    if rest == 0 || over == 0 {
        return rest.cmp(&over);
    }
    compared(d, over, b, rest)
}
