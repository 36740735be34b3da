ghost use Rattle.std.specs.Prelude.{◌≡◌};
ghost use Rattle.equations.specs.Regrouped.{prism_units};
ghost use Rattle.equations.specs.Soil.{fully_supported};
ghost use Rattle.quantities.specs.Case.{design_of};
ghost use Rattle.quantities.specs.Quantities.{Soil};

use crate::case::Case;
use crate::formulas::{long_parts, parts};
use enclosure::Arithmetic;
use lookups::{Pressure, embedment_modulus, support_factor};

/// Whether nothing of the embedment's modulus is lost.
fn is_fully_supported(case: &Case) -> bool
    ensures { result ≡ fully_supported (design_of case.now) }
{
    let site = case.site;
    3 * case.section.outside <= site.trench || site.fill < 120_000 && site.stable_walls
}

/// The modulus of the soil, at the prism pressure.
pub(crate) fn soil_modulus<A: Arithmetic>(case: &Case, prism: u64) -> A
    requires { prism ≡ prism_units (design_of case.now) }
    ensures { Soil A.model (design_of case.now) result }
{
    let pressure = Pressure {
        num: prism,
        den: 3_456_000_000,
    };
    let modulus = embedment_modulus(case.embedment, pressure);
    let embedment: A = parts(modulus.num, modulus.den);
    if is_fully_supported(case) {
        return embedment;
    }
    let factor = support_factor(case.grid, &case.section, &case.site, modulus);
    long_parts::<A>(factor.num, factor.den).mul(embedment)
}
