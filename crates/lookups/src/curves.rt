ghost use Rattle.std.specs.Prelude.{◌≡◌, ◌*◌, ◌^◌, ◌<◌, ◌≤◌, max};
ghost use Rattle.fraction.specs.Fraction.{Same};
ghost use Rattle.fraction.specs.Ratio.{value};
ghost use Rattle.lookups.specs.Lookup.{curve_at, modulus_at, shape_at};
ghost use Rattle.lookups.specs.Operand.{pressure_of, stiffness_of, modulus_of};
ghost use Rattle.records.specs.Lines.{points_of, embedment_points, shape_points};

use crate::axes::cell_of;
use crate::operand::{Modulus, Pressure, Stiffness};
use fraction::Ratio;
use records::{Curve, CurveKind, EmbedmentCurve, ShapeCurve};

// A curve's value, in the units of its points.
fn curve_value<K: CurveKind>(curve: &Curve<K>, at: Ratio) -> Ratio
    requires { at.den < 2 ^ 64 }
    ensures value { Same (value result) (curve_at (points_of curve.now) (value at)) }
    ensures least { K.rules.least * result.den ≤ result.num }
    ensures most { result.num ≤ K.rules.most * result.den }
    ensures fits { result.den ≤ max 1 (K.rules.reach * at.den) }
{
    let points = curve.points();
    let cell = cell_of(points, at);
    let sum = cell.weigh(points[cell.first].y as u128, points[cell.second].y as u128);
    Ratio {
        num: sum,
        den: cell.after + cell.before,
    }
}

impl Pressure {
    // In the unit of a curve's places; not a From, since the unit changes.
    fn hundredths(self) -> Ratio
        ensures num { result.num ≡ 100 * self.num }
        ensures den { result.den ≡ self.den }
    {
        Ratio {
            num: 100 * self.num as u128,
            den: self.den as u128,
        }
    }
}

/// The embedment's modulus at a pressure, exactly.
pub fn embedment_modulus(curve: &EmbedmentCurve, pressure: Pressure) -> Modulus
    ensures { Same (modulus_of result) (modulus_at (embedment_points curve.now) (pressure_of pressure)) }
{
    let value = curve_value(curve, pressure.hundredths());
    Modulus {
        num: value.num as u64,
        den: value.den as u64,
    }
}

// A hundredth of the value.
fn hundredth(value: Ratio) -> Ratio
    requires { 100 * value.den < 2 ^ 128 }
    ensures num { result.num ≡ value.num }
    ensures den { result.den ≡ 100 * value.den }
{
    Ratio {
        num: value.num,
        den: 100 * value.den,
    }
}

/// The shape factor at a pipe stiffness, exactly.
pub fn shape_factor(curve: &ShapeCurve, stiffness: Stiffness) -> Ratio
    ensures value { Same (value result) (shape_at (shape_points curve.now) (stiffness_of stiffness)) }
    ensures least { result.den ≤ result.num }
    ensures most { result.num ≤ 10 * result.den }
    ensures fits { result.den ≤ 10000000 * stiffness.den }
{
    hundredth(curve_value(curve, Ratio::from(stiffness)))
}
