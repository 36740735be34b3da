ghost use Rattle.std.specs.Prelude.{◌≡◌};
ghost use Rattle.enclosure.specs.Answer.{compared};
ghost use Rattle.equations.specs.Limits.{buoyant};
ghost use Rattle.quantities.specs.Case.{design_of};
ghost use Rattle.judging.specs.Answers.{state_of};
ghost use Rattle.judging.specs.WorkedCase.{design, IsWorkedOut};
ghost use Rattle.judging.specs.Judged.{LimitJudged, Asked, SheetJudged, Means};

use crate::answer::State;
use crate::sheet::Sheet;
use crate::sides::{
    bending_strain, buckling_cube, compression_allowed, flexibility, hold_down, tension_allowed,
    uplift,
};
use crate::verdicts::verdict;
use crate::worked_case::WorkedCase;
use enclosure::Arithmetic;
use equations::LimitState;
use quantities::{Case, cube, parts};

/// Holds where the left side is at most the right one, fails where it is above, and undecided where that is unknown.
fn state<A: Arithmetic>(left: A, right: A) -> State
    ensures { result ≡ state_of (compared A.model left right) }
{
    left.at_most(right).into()
}

impl<'a, A: Arithmetic> WorkedCase<'a, A> {
    fn thrust(&self) -> State
        requires { IsWorkedOut A.model self.now }
        ensures { LimitJudged A.model LimitState.Thrust (design self.now) result }
    {
        let allowed = parts(self.given.section.compression_limit, 10_000);
        state(self.worked.thrust_strain, allowed)
    }

    fn net_tension(&self) -> State
        requires { IsWorkedOut A.model self.now }
        ensures { LimitJudged A.model LimitState.NetTension (design self.now) result }
    {
        let bent = bending_strain(&self.worked);
        let limit = parts(self.given.section.tension_limit, 10_000);
        let allowed = tension_allowed(limit, &self.worked);
        state(bent, allowed)
    }

    fn combined(&self) -> State
        requires { IsWorkedOut A.model self.now }
        ensures { LimitJudged A.model LimitState.Combined (design self.now) result }
    {
        let bent = bending_strain(&self.worked);
        let pressed = bent.add(self.worked.thrust_strain);
        let limit = parts(self.given.section.compression_limit, 10_000);
        let allowed = compression_allowed(limit, &self.worked);
        state(pressed, allowed)
    }

    fn deflection(&self) -> State
        requires { IsWorkedOut A.model self.now }
        ensures { LimitJudged A.model LimitState.Deflection (design self.now) result }
    {
        let share = parts::<A>(5, 100);
        let allowed = share.mul(self.worked.measures.inside);
        state(self.worked.deflection, allowed)
    }

    fn buckling(&self) -> State
        requires { IsWorkedOut A.model self.now }
        ensures { LimitJudged A.model LimitState.Buckling (design self.now) result }
    {
        let strain = cube(self.worked.thrust_strain);
        let allowed = buckling_cube(&self.worked);
        state(strain, allowed)
    }

    fn flexibility(&self) -> State
        requires { IsWorkedOut A.model self.now }
        ensures { LimitJudged A.model LimitState.Flexibility (design self.now) result }
    {
        let give = flexibility(&self.worked.measures);
        let allowed = parts(95, 1_000);
        state(give, allowed)
    }

    fn buoyancy(&self) -> State
        requires { IsWorkedOut A.model self.now }
        ensures { Asked (buoyant (design self.now)) (LimitJudged A.model LimitState.Buoyancy (design self.now) result) result }
    {
        if self.given.site.water == 0 {
            return State::NotApplied;
        }
        let lift = uplift(&self.worked.measures);
        let held = hold_down(&self.worked);
        state(lift, held)
    }

    fn sheet(&self) -> Sheet
        requires { IsWorkedOut A.model self.now }
        ensures { SheetJudged A.model (design self.now) result }
    {
        let thrust = self.thrust();
        let net_tension = self.net_tension();
        let combined = self.combined();
        let deflection = self.deflection();
        let buckling = self.buckling();
        let flexibility = self.flexibility();
        let buoyancy = self.buoyancy();
        let verdict = verdict(&[
            (LimitState::Thrust, thrust),
            (LimitState::NetTension, net_tension),
            (LimitState::Combined, combined),
            (LimitState::Deflection, deflection),
            (LimitState::Buckling, buckling),
            (LimitState::Flexibility, flexibility),
            (LimitState::Buoyancy, buoyancy),
        ]);
        Sheet {
            thrust,
            net_tension,
            combined,
            deflection,
            buckling,
            flexibility,
            buoyancy,
            verdict,
        }
    }
}

/// The states of the seven limit states, and the verdict.
pub fn judge<A: Arithmetic>(case: &Case) -> Sheet
    ensures states { SheetJudged A.model (design_of case.now) result }
    ensures verdict { Means A.model.fineness (design_of case.now) result.verdict }
{
    WorkedCase::<A>::of(case).sheet()
}
