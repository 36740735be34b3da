// The sides of the limit states as the arithmetic computes them, each in the order of its definition.
ghost use Rattle.std.specs.Prelude.{◌≡◌};
ghost use Rattle.enclosure.specs.Formula.{computed};
ghost use Rattle.judging.specs.Sides.{bending_strain_of, tension_allowed_of, compression_allowed_of, buckling_cube_of, flexibility_of, uplift_of, hold_down_of};

use enclosure::Arithmetic;
use quantities::{Measures, Worked, cube, parts, square};

pub(crate) fn bending_strain<A: Arithmetic>(worked: &Worked<A>) -> A
    ensures { result ≡ bending_strain_of (computed A.model) worked.now.bending worked.now.measures.inside worked.now.measures.centroid }
{
    let measures = worked.measures;
    let bent = parts::<A>(5, 100).mul(worked.bending);
    bent.mul(measures.inside).div(measures.centroid)
}

pub(crate) fn tension_allowed<A: Arithmetic>(limit: A, worked: &Worked<A>) -> A
    ensures { result ≡ tension_allowed_of (computed A.model) limit worked.now.least_strain worked.now.bending worked.now.service_strain }
{
    let bent = worked.bending.mul(worked.service_strain);
    limit.add(worked.least_strain).add(bent)
}

pub(crate) fn compression_allowed<A: Arithmetic>(limit: A, worked: &Worked<A>) -> A
    ensures { result ≡ compression_allowed_of (computed A.model) limit worked.now.bending worked.now.service_strain }
{
    let bent = worked.bending.mul(worked.service_strain);
    parts::<A>(15, 10).mul(limit).add(bent)
}

pub(crate) fn buckling_cube<A: Arithmetic>(worked: &Worked<A>) -> A
    ensures { result ≡ buckling_cube_of (computed A.model) worked.now.measures.moment worked.now.measures.effective_area worked.now.measures.long_modulus worked.now.modulus worked.now.measures.fill worked.now.measures.centroid }
{
    let measures = worked.measures;
    let area = cube(measures.effective_area);
    let wall = measures.moment.div(area.mul(square(measures.long_modulus)));
    let share = parts::<A>(4, 10).div(parts(49, 100));
    let support = parts::<A>(9, 10).mul(worked.modulus).mul(share);
    let flat = measures.centroid.div(measures.fill);
    let depth = parts::<A>(114, 10).div(A::whole(11).add(flat));
    cube(parts::<A>(462, 1_000))
        .mul(wall)
        .mul(square(support))
        .mul(cube(depth))
}

pub(crate) fn flexibility<A: Arithmetic>(measures: &Measures<A>) -> A
    ensures { result ≡ flexibility_of (computed A.model) measures.now.centroid measures.now.short_modulus measures.now.moment }
{
    let stiffness = measures.short_modulus.mul(measures.moment);
    square(measures.centroid).div(stiffness)
}

pub(crate) fn uplift<A: Arithmetic>(measures: &Measures<A>) -> A
    ensures { result ≡ uplift_of (computed A.model) measures.now.outside }
{
    let quarter = parts::<A>(3_141_592_654, 1_000_000_000).div(A::whole(4));
    quarter
        .mul(square(measures.outside))
        .mul(parts(624, 10))
        .div(A::whole(1_728))
}

pub(crate) fn hold_down<A: Arithmetic>(worked: &Worked<A>) -> A
    ensures { result ≡ hold_down_of (computed A.model) worked.now.prism worked.now.measures.outside }
{
    let pressed = parts::<A>(675, 1_000).mul(worked.prism);
    pressed.mul(worked.measures.outside)
}
