ghost use Rattle.std.specs.Prelude.{◌≡◌};
ghost use Rattle.judging.specs.WorkedCase.{IsWorkedOut};

use enclosure::Arithmetic;
use quantities::{Case, Worked};

/// A case beside its quantities.
// What ties the two is required, and no ghost field: it holds how each enclosure was made, and a ghost field holds no data.
#[derive(Clone, Copy)]
pub(crate) struct WorkedCase<'a, A> {
    pub(crate) given: &'a Case<'a>,
    pub(crate) worked: Worked<A>,
}

impl<'a, A: Arithmetic> WorkedCase<'a, A> {
    pub(crate) fn of(given: &'a Case<'a>) -> Self
        ensures given { result.given.now ≡ given.now }
        ensures worked { IsWorkedOut A.model result }
    {
        WorkedCase {
            given,
            worked: Worked::of(given),
        }
    }
}
