ghost use Rattle.std.specs.Prelude.{◌≡◌, ◌-◌, ◌*◌, ◌≤◌};
ghost use Rattle.enclosure.specs.Formula.{computed};
ghost use Rattle.equations.specs.Regrouped.{prism_units};
ghost use Rattle.quantities.specs.Case.{design_of};
ghost use Rattle.quantities.specs.Formulas.{parts_of, live_length_of, truck_pressure_of};
ghost use Rattle.quantities.specs.MeasuredCase.{design};
ghost use Rattle.quantities.specs.Quantities.{Water, Live};

use crate::case::Case;
use crate::formulas::{live_length, parts, plus, truck_pressure, water_pressure, wheel_width};
use crate::measured::MeasuredCase;
use enclosure::Arithmetic;
use records::LiveLoad;

/// The prism pressure in units of 1 / 3,456,000,000 psi.
pub(crate) fn prism_units(case: &Case) -> u64
    ensures value { result ≡ prism_units (design_of case.now) }
    ensures least { 400000000 ≤ result }
    ensures most { result ≤ 1300000000000 }
{
    let section = case.section;
    let site = case.site;
    if 2 * site.water <= section.outside {
        return 2 * (100 * site.fill + 11 * section.outside) * site.moist_weight;
    }
    let over = 2 * site.water - section.outside;
    let moist = 100 * (2 * site.fill - over) * site.moist_weight;
    moist + (100 * over + 22 * section.outside) * (site.saturated_weight - 624)
}

// Under wheels of this load and this width at the crown, up to 96 inches deep.
fn under_wheels<A: Arithmetic>(fill: u64, load: u64, depth: A, width: A) -> A
    requires { fill ≤ 96000 }
    ensures { result ≡ truck_pressure_of (computed A.model) (parts_of (computed A.model) (12768000 - 33 * fill) 9600000) (A.model.from_whole load) (live_length_of (computed A.model) depth) width }
{
    let impact = parts(12_768_000 - 33 * fill, 9_600_000);
    truck_pressure(impact, A::whole(load), live_length(depth), width)
}

impl<'a, A: Arithmetic> MeasuredCase<'a, A> {
    /// The hydrostatic pressure, where there is water.
    pub(crate) fn water(&self) -> Option<A>
        ensures { Water A.model (design self.now) result }
    {
        let site = self.given.site;
        if site.water == 0 {
            return None;
        }
        let factor = parts(site.water_factor, 100);
        let depth = parts(site.water, 1_000);
        Some(water_pressure(factor, depth, self.measures.fill, self.measures.outside))
    }

    /// The live load's pressure, where it counts.
    pub(crate) fn live_pressure(&self) -> Option<A>
        ensures { Live A.model (design self.now) result }
    {
        let measures = &self.measures;
        let fill = self.given.site.fill;
        let deep = fill > 96_000;
        let paired = 115 * fill + 6 * self.given.section.inside >= 5_200_000;
        let (load, more) = match self.given.site.live_load {
            LiveLoad::None => return None,
            LiveLoad::Truck if deep => return None,
            LiveLoad::Truck if paired => (32_000, Some(A::whole(72))),
            LiveLoad::Truck => (16_000, None),
        };
        let width = plus(wheel_width(measures.fill, measures.inside), more);
        Some(under_wheels(fill, load, measures.fill, width))
    }
}
