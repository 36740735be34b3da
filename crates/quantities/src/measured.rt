ghost use Rattle.std.specs.Prelude.{◌≡◌};
ghost use Rattle.enclosure.specs.Formula.{computed};
ghost use Rattle.quantities.specs.Case.{design_of};
ghost use Rattle.quantities.specs.Measured.{measures_of};

use crate::case::Case;
use crate::measures::Measures;
use enclosure::Arithmetic;

/// A case with its measures.
#[derive(Drop)]
pub(crate) struct MeasuredCase<'a, A: Arithmetic> {
    pub(crate) given: &'a Case<'a>,
    pub(crate) measures: Measures<A>,
    ghost measured: { measures ≡ measures_of (computed A.model) (design_of given.now) },
}

impl<'a, A: Arithmetic> MeasuredCase<'a, A> {
    pub(crate) fn of(given: &'a Case<'a>) -> Self
        ensures { result.given.now ≡ given.now }
    {
        MeasuredCase {
            given,
            measures: Measures::of(given),
        }
    }
}
