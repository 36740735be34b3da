ghost use Rattle.std.specs.Prelude.{◌≡◌};
ghost use Rattle.quantities.specs.Case.{design_of};
ghost use Rattle.judging.specs.Claims.{ClaimMarked, ClaimsMarked};
ghost use Rattle.judging.specs.WorkedCase.{design, IsWorkedOut};
ghost use Rattle.judging.specs.Judged.{Marked, ReadOutOf, mark_of};
ghost use Rattle.judging.specs.Figured.{FigureKnown, MillionthsKnown};
ghost use Rattle.equations.specs.Figures.{figure_millionths};

use crate::answer::Mark;
use crate::claim::Claim;
use crate::claimed::Claimed;
use crate::worked_case::WorkedCase;
use enclosure::{Arithmetic, Comparison, ReadOut};
use equations::Figure;
use quantities::{Case, parts};

fn marked(above: Comparison, below: Comparison) -> Mark
    ensures { result ≡ mark_of above below }
{
    match (above, below) {
        (Comparison::Yes, Comparison::Yes) => Mark::Right,
        (Comparison::No, _) | (_, Comparison::No) => Mark::Wrong,
        _ => Mark::Unmarked,
    }
}

impl<'a, A: Arithmetic> WorkedCase<'a, A> {
    fn chosen(&self, figure: Figure) -> A
        requires { IsWorkedOut A.model self.now }
        ensures { FigureKnown A.model (design self.now) figure result }
    {
        let worked = &self.worked;
        match figure {
            Figure::PrismPressure => worked.prism,
            Figure::SoilModulus => worked.modulus,
            Figure::HoopStiffness => worked.hoop,
            Figure::VerticalArching => worked.arching,
            Figure::DesignThrust => worked.design_thrust,
            Figure::ThrustStrain => worked.thrust_strain,
            Figure::ServiceStrain => worked.service_strain,
            Figure::Deflection => worked.deflection,
        }
    }

    fn millionths(&self, figure: Figure) -> A
        requires { IsWorkedOut A.model self.now }
        ensures { MillionthsKnown A.model (design self.now) figure result }
    {
        self.chosen(figure).mul(A::whole(1_000_000))
    }

    fn mark(&self, figure: Figure, claim: Claimed) -> Mark
        requires { IsWorkedOut A.model self.now }
        ensures { Marked A.model claim.value (figure_millionths figure (design self.now)) result }
    {
        let value = self.millionths(figure);
        let low = parts::<A>(99 * claim.value, 100);
        let high = parts::<A>(101 * claim.value, 100);
        let above = low.at_most(value);
        let below = value.at_most(high);
        marked(above, below)
    }

    // Writes the mark of a claim beside it, if the claim can be marked.
    fn mark_one(&self, claim: &mut Claim)
        requires { IsWorkedOut A.model self.now }
        ensures { ClaimMarked A.model (design self.now) claim.old claim.new }
    {
        let Some(figure) = Figure::numbered(claim.figure) else {
            return;
        };
        let Some(claimed) = Claimed::new(claim.value) else {
            return;
        };
        claim.mark = Some(self.mark(figure, claimed));
    }
}

/// Marks a claim on a figure: right within one hundredth of the claim, wrong outside.
pub fn mark<A: Arithmetic>(case: &Case, figure: Figure, claim: Claimed) -> Mark
    ensures { Marked A.model claim.value (figure_millionths figure (design_of case.now)) result }
{
    WorkedCase::<A>::of(case).mark(figure, claim)
}

/// Writes beside each claim the mark that it earns; a claim that is on no figure, or out of range, stays as it is.
pub fn mark_all<A: Arithmetic>(case: &Case, claims: &mut [Claim])
    ensures { ClaimsMarked A.model (design_of case.now) claims.old claims.new }
{
    let worked = WorkedCase::<A>::of(case);
    for claim in claims.iter_mut() {
        worked.mark_one(claim);
    }
}

/// A figure in millionths: the whole numbers below it and above it.
pub fn figure<A: ReadOut>(case: &Case, figure: Figure) -> (u64, u64)
    ensures { ReadOutOf A.Arithmetic.model.fineness (figure_millionths figure (design_of case.now)) result.0 result.1 }
{
    let value = WorkedCase::<A>::of(case).millionths(figure);
    let below = value.floor().unwrap();
    let above = value.ceiling().unwrap();
    (below, above)
}
