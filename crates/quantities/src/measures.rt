ghost use Rattle.std.specs.Prelude.{◌≡◌};
ghost use Rattle.enclosure.specs.Formula.{computed};
ghost use Rattle.quantities.specs.Case.{design_of};
ghost use Rattle.quantities.specs.Formulas.{resistance_of, deflection_of};

use crate::case::Case;
use crate::formulas::{live_deflection, parts, plus, resistance, soil_deflection};
use crate::worked::Live;
use enclosure::Arithmetic;

/// The records' fields in the units of the equations.
#[derive(Clone, Copy)]
pub struct Measures<A> {
    pub inside: A,
    pub centroid: A,
    pub outside: A,
    pub gross_area: A,
    pub effective_area: A,
    pub moment: A,
    pub short_modulus: A,
    pub long_modulus: A,
    pub fill: A,
}

impl<A: Arithmetic> Measures<A> {
    ghost use Rattle.quantities.specs.Measured.{measures_of};

    pub(crate) fn of(case: &Case) -> Self
        ensures { result ≡ measures_of (computed A.model) (design_of case.now) }
    {
        let section = case.section;
        Measures {
            inside: parts(section.inside, 1_000),
            centroid: parts(section.centroid, 1_000),
            outside: parts(section.outside, 1_000),
            gross_area: parts(section.gross_area, 10_000),
            effective_area: parts(section.effective_area, 10_000),
            moment: parts(section.moment, 1_000_000),
            short_modulus: A::whole(section.short_modulus),
            long_modulus: A::whole(section.long_modulus),
            fill: parts(case.site.fill, 1_000),
        }
    }

    // What resists the pipe's flattening, at a modulus of the pipe in soil of this modulus.
    fn resistance(&self, modulus: A, soil: A) -> A
        ensures { result ≡ resistance_of (computed A.model) modulus self.now.moment self.now.centroid soil }
    {
        resistance(modulus, self.moment, self.centroid, soil)
    }

    pub(crate) fn deflection(&self, prism: A, soil: A, live: &Live<A>, service: A) -> A
        ensures { result ≡ deflection_of (computed A.model) self.now prism soil live.now service }
    {
        let long = self.resistance(self.long_modulus, soil);
        let short = self.resistance(self.short_modulus, soil);
        let under_soil = soil_deflection(prism, self.outside, long);
        let under_load = live.pressure.map(|pressure| live_deflection(
            live.share,
            pressure,
            self.outside,
            short,
        ));
        plus(under_soil, under_load).add(self.centroid.mul(service))
    }
}
