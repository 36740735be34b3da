ghost use Rattle.std.specs.Prelude.{◌≡◌, ◌≤◌, T, length};
ghost use lib.Dec.{lit≤};
ghost use Rattle.records.specs.Cause.{answered, unless};
ghost use Rattle.records.specs.Curve.{curve_complete, curve_refusal, lawful_points, paired, embedment_rules, shape_rules};
ghost use Rattle.records.specs.ShortList.{in_use};

use crate::fault::Fault;
use crate::fields::{Allowed, in_ranges};
use crate::point::{CurveRules, Point, Rule};
use crate::short_list::ShortList;
use std::alloc::AllocError;
use std::marker::PhantomData;

/// A kind of curve, by its rules.
pub trait CurveKind {
    ghost use Rattle.records.specs.declared.point.CurveRules.{CurveRules};

    ghost rules: { CurveRules };

    fn rules() -> CurveRules
        ensures { result ≡ rules };

    // No kind reaches further or higher, so that a value along it fits.
    ghost bounded: { (rules.reach ≤ 100000) × (rules.most ≤ 50000) };
}

/// How the embedment stiffens: x is a pressure in hundredths of psi, y a modulus in psi.
#[derive(Clone, Copy)]
pub struct Embedment;

impl CurveKind for Embedment {
    ghost rules = { embedment_rules };

    ghost bounded = { (lit≤ tt, lit≤ tt) };

    fn rules() -> CurveRules {
        CurveRules {
            reach: 20_000,
            least: 50,
            most: 50_000,
            trend: Rule::NeverFalling,
        }
    }
}

/// How the shape factor falls: x is a pipe stiffness in hundredths of psi, y a factor in hundredths.
#[derive(Clone, Copy)]
pub struct Shape;

impl CurveKind for Shape {
    ghost rules = { shape_rules };

    ghost bounded = { (lit≤ tt, lit≤ tt) };

    fn rules() -> CurveRules {
        CurveRules {
            reach: 100_000,
            least: 100,
            most: 1_000,
            trend: Rule::NeverRising,
        }
    }
}

/// A curve of a kind, through one to eight points.
pub struct Curve<K: CurveKind> {
    points: ShortList<Point, 8>,
    kind: PhantomData<K>,
    ghost lawful: { T (lawful_points K.rules (in_use points)) },
}

pub type EmbedmentCurve = Curve<Embedment>;

pub type ShapeCurve = Curve<Shape>;

// By hand: of a generic struct with a ghost field, Clone cannot be derived.
impl<K: CurveKind> Clone for Curve<K> {
    ghost is_clone = { λ x y. x ≡ y };

    ghost is_infallible = { λ x. Unit {0} };

    fn clone(&self) -> Result<Self, AllocError> {
        Ok(*self)
    }
}

impl<K: CurveKind> Copy for Curve<K> {}

impl<K: CurveKind> Curve<K> {
    ghost use Rattle.records.specs.Lines.{points_of, line_of};

    /// The curve of these fields, as its line has them after the place, or why there is none.
    #[tactic(auto, using(crate::proofs::CurveLines::curve_made))]
    pub fn new(fields: &[u64]) -> Result<Self, Fault>
        ensures { answered line_of result ≡ unless (curve_refusal K.rules fields.now) fields.now }
    {
        if !curve_complete(fields) {
            return Err(Fault::MISCOUNTED);
        }
        in_ranges(&[Allowed::Between(1, 8)], 2, &fields[..1])?;
        let rules = K::rules();
        let rest = &fields[1..];
        in_ranges(
            &[
                Allowed::Between(1, rules.reach),
                Allowed::Between(rules.least, rules.most),
            ],
            3,
            rest,
        )?;
        let points = paired(rest);
        if !rules.trend.holds_along(points.as_slice()) {
            return Err(Fault::DISORDERED);
        }
        if !Rule::Gentle.holds_along(points.as_slice()) {
            return Err(Fault::TOO_STEEP);
        }
        Ok(Curve {
            points,
            kind: PhantomData,
        })
    }

    /// The points in use.
    pub fn points(&self) -> &[Point]
        ensures { result.now ≡ points_of self.now }
    {
        self.points.as_slice()
    }
}

/// Whether a curve's line has the fields that its count asks for.
pub fn curve_complete(fields: &[u64]) -> bool
    ensures { result ≡ curve_complete fields.now }
{
    match fields {
        [] => false,
        [count, ..] => fields.len() as u128 == 1 + 2 * *count as u128,
    }
}

// The points whose fields these are.
fn paired(fields: &[u64]) -> ShortList<Point, 8>
    requires few { length fields.now ≤ 16 }
    ensures { in_use result ≡ paired fields.now }
{
    let mut points = ShortList::new();
    for pair in fields.chunks_exact(2) {
        points.push(Point {
            x: pair[0],
            y: pair[1],
        });
    }
    points
}
