ghost use Rattle.std.specs.Prelude.{◌≤◌};
ghost use Rattle.equations.specs.Bending.{pipe_stiffness};
ghost use Rattle.fraction.specs.Fraction.{Same};
ghost use Rattle.quantities.specs.Case.{design_of};
ghost use Rattle.quantities.specs.MeasuredCase.{design};
ghost use Rattle.quantities.specs.Quantities.{Bending, LoadFactor};
ghost use Rattle.lookups.specs.Operand.{stiffness_of};

use crate::case::Case;
use crate::formulas::{bending_factor, long_parts, parts};
use crate::measured::MeasuredCase;
use enclosure::Arithmetic;
use lookups::{Stiffness, shape_factor};

/// The pipe's stiffness, as the section gives it, or computed where it gives 0.
fn stiffness(case: &Case) -> Stiffness
    ensures value { Same (stiffness_of result) (pipe_stiffness (design_of case.now)) }
    ensures fits { result.den ≤ 257472000000000000 }
{
    let section = case.section;
    if section.stiffness != 0 {
        return Stiffness {
            num: section.stiffness as u128,
            den: 1,
        };
    }
    let centroid = section.centroid;
    Stiffness {
        num: 800_000_000 * section.short_modulus as u128 * section.moment as u128,
        den: 149 * (centroid * centroid * centroid),
    }
}

impl<'a, A: Arithmetic> MeasuredCase<'a, A> {
    /// The bending factor.
    pub(crate) fn bending(&self, load: A) -> A
        requires { LoadFactor A.model (design self.now) load }
        ensures { Bending A.model (design self.now) result }
    {
        let case = self.given;
        let section = case.section;
        let factor = shape_factor(case.shape, stiffness(case));
        let shape = long_parts(factor.num, factor.den);
        let outer = section.outside - section.centroid;
        let inner = section.centroid - section.inside;
        let face = parts(outer.max(inner), 1_000);
        bending_factor(load, shape, face, self.measures.centroid)
    }
}
