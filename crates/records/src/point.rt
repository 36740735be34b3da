ghost use Rattle.std.specs.Prelude.{◌≡◌};
ghost use Rattle.records.specs.Curve.{holds, chained};

/// A point of a curve, in the units of its kind.
#[derive(Clone, Copy, PartialEq, Eq, Debug, Default)]
pub struct Point {
    pub x: u64,
    pub y: u64,
}

/// What is asked of a point and the next.
// An enum, and no closure: the rules of a kind of curve hold it, and the definitions name it.
#[derive(Clone, Copy)]
pub enum Rule {
    /// Further on, and no lower.
    NeverFalling,
    /// Further on, and no higher.
    NeverRising,
    /// Not too steep.
    Gentle,
}

/// What a kind of curve asks of its points: x from 1 to `reach`, y from `least` to `most`, and a trend.
#[derive(Clone, Copy)]
pub struct CurveRules {
    pub reach: u64,
    pub least: u64,
    pub most: u64,
    pub trend: Rule,
}

impl Rule {
    /// Whether this holds of a point and the next.
    pub fn holds(self, p: Point, q: Point) -> bool
        ensures { result ≡ holds self p q }
    {
        match self {
            Rule::NeverFalling => p.x < q.x && p.y <= q.y,
            Rule::NeverRising => p.x < q.x && q.y <= p.y,
            Rule::Gentle => is_gentle(p, q),
        }
    }

    /// Whether this holds of each point and the next.
    pub fn holds_along(self, points: &[Point]) -> bool
        ensures { result ≡ chained (holds self) points.now }
    {
        points.is_sorted_by(|p, q| self.holds(*p, *q))
    }
}

// The left side stays below the largest number, so that the right one may stop there.
fn is_gentle(p: Point, q: Point) -> bool
    ensures { result ≡ holds Rule.Gentle p q }
{
    let rise = p.y.abs_diff(q.y) as u128;
    let run = q.x.saturating_sub(p.x) as u128;
    let lower = p.y.min(q.y) as u128;
    rise * q.x as u128 <= (lower * run).saturating_mul(4)
}
