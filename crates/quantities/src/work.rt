ghost use Rattle.std.specs.Prelude.{◌≡◌, option_map};
ghost use Rattle.enclosure.specs.Formula.{computed};
ghost use Rattle.quantities.specs.Case.{design_of};
ghost use Rattle.quantities.specs.Formulas.{strain_of, live_part_of};
ghost use Rattle.quantities.specs.MeasuredCase.{design};
ghost use Rattle.quantities.specs.Quantities.{Hoop};
ghost use Rattle.quantities.specs.Worked.{LiveKnown, WorkedKnown};

use crate::case::Case;
use crate::cover::Cover;
use crate::formulas::{
    arching, hoop_factor, hoop_stiffness, length_share, live_length, live_part, live_thrust,
    load_factor, parts, plus, spread_factor,
};
use crate::loads::prism_units;
use crate::measured::MeasuredCase;
use crate::soils::soil_modulus;
use crate::worked::{Live, Worked};
use enclosure::Arithmetic;

fn strain<A: Arithmetic>(thrust: A, modulus: A, live: Option<A>, area: A) -> A
    ensures { result ≡ strain_of (computed A.model) thrust modulus live area }
{
    plus(thrust.div(modulus), live).div(area)
}

// The parts differ in their formula. As a map in `worked`, where each is used once, the proof didn't close.
impl<A: Arithmetic> Live<A> {
    // What the thrust adds to a factored strain, times the area.
    fn factored_part(&self, modulus: A) -> Option<A>
        ensures { result ≡ option_map (λ t. live_part_of (computed A.model) t modulus) self.now.thrust }
    {
        self.thrust.map(|thrust| live_part(thrust, modulus))
    }

    // And to the service strain.
    fn plain_part(&self, modulus: A) -> Option<A>
        ensures { result ≡ option_map (λ t. A.model.quotient t modulus) self.now.thrust }
    {
        self.thrust.map(|thrust| thrust.div(modulus))
    }
}

impl<'a, A: Arithmetic> MeasuredCase<'a, A> {
    fn live(&self, hoop: A) -> Live<A>
        requires { Hoop A.model (design self.now) hoop }
        ensures { LiveKnown A.model (design self.now) result }
    {
        let measures = &self.measures;
        let length = live_length(measures.fill);
        let share = length_share(length, measures.outside);
        let pressure = self.live_pressure();
        let thrust = pressure.map(|pressure| {
            let spread = spread_factor(length, measures.outside, measures.inside);
            live_thrust(share, spread, hoop_factor(hoop), pressure, measures.outside)
        });
        Live {
            share,
            pressure,
            thrust,
        }
    }

    fn worked(&self) -> Worked<A>
        ensures { WorkedKnown A.model (design self.now) result }
    {
        let measures = self.measures;
        let long = measures.long_modulus;
        let short = measures.short_modulus;
        let units = prism_units(self.given);
        let prism = parts(units, 3_456_000_000);
        let modulus = soil_modulus(self.given, units);
        let hoop = hoop_stiffness(modulus, measures.centroid, long, measures.gross_area);
        let arching = arching(hoop);
        let load_factor = load_factor(parts(self.given.site.installation_factor, 100));
        let cover = Cover {
            arching,
            prism,
            water: self.water(),
            outside: measures.outside,
        };
        let live = self.live(hoop);
        let factored = live.factored_part(short);
        let plain = live.plain_part(short);
        let design_thrust = cover.design_thrust(load_factor);
        let service_strain = strain(cover.service_thrust(), long, plain, measures.gross_area);
        Worked {
            measures,
            prism,
            modulus,
            hoop,
            arching,
            load_factor,
            design_thrust,
            thrust_strain: strain(design_thrust, long, factored, measures.effective_area),
            least_strain: strain(
                cover.least_thrust(),
                long,
                factored,
                measures.effective_area,
            ),
            service_strain,
            deflection: measures.deflection(prism, modulus, &live, service_strain),
            bending: self.bending(load_factor),
        }
    }
}

impl<A: Arithmetic> Worked<A> {
    /// The quantities of a case.
    pub fn of(case: &Case) -> Self
        ensures { WorkedKnown A.model (design_of case.now) result }
    {
        MeasuredCase::of(case).worked()
    }
}
