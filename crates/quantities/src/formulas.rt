// The equations as the arithmetic computes them, each in the order of its definition.
ghost use Rattle.std.specs.Prelude.{◌≡◌};
ghost use Rattle.enclosure.specs.Formula.{computed};
ghost use Rattle.quantities.specs.Formulas.{parts_of, long_parts_of, half_of, square_of, cube_of, plus_of, water_pressure_of, live_length_of, wheel_width_of, truck_pressure_of, hoop_stiffness_of, arching_of, load_factor_of, length_share_of, spread_factor_of, hoop_factor_of, live_thrust_of, factored_thrust_of, thrust_of, live_part_of, bending_factor_of, resistance_of, soil_deflection_of, live_deflection_of};

use enclosure::{Arithmetic, wide};

/// `n` over `k`.
pub fn parts<A: Arithmetic>(n: u64, k: u64) -> A
    ensures { result ≡ parts_of (computed A.model) n k }
{
    A::whole(n).div(A::whole(k))
}

/// `n` over `k`, of more than 62 bits.
// Beside `parts`: one function over u64 and u128 would need a trait that each calls by name, and is no plainer.
pub(crate) fn long_parts<A: Arithmetic>(n: u128, k: u128) -> A
    ensures { result ≡ long_parts_of (computed A.model) n k }
{
    wide::<A>(n).div(wide(k))
}

fn half<A: Arithmetic>(x: A) -> A
    ensures { result ≡ half_of (computed A.model) x }
{
    x.div(A::whole(2))
}

/// `x` times itself.
pub fn square<A: Arithmetic>(x: A) -> A
    ensures { result ≡ square_of (computed A.model) x }
{
    x.mul(x)
}

/// The cube of `x`.
pub fn cube<A: Arithmetic>(x: A) -> A
    ensures { result ≡ cube_of (computed A.model) x }
{
    x.mul(x).mul(x)
}

/// `x`, and `y` where there is one.
pub(crate) fn plus<A: Arithmetic>(x: A, y: Option<A>) -> A
    ensures { result ≡ plus_of (computed A.model) x y }
{
    y.map_or(x, |y| x.add(y))
}

pub(crate) fn water_pressure<A: Arithmetic>(factor: A, water: A, fill: A, outside: A) -> A
    ensures { result ≡ water_pressure_of (computed A.model) factor water fill outside }
{
    let depth = factor.mul(water).smaller(fill.add(half(outside)));
    parts::<A>(624, 10).mul(depth).div(A::whole(1_728))
}

pub(crate) fn live_length<A: Arithmetic>(fill: A) -> A
    ensures { result ≡ live_length_of (computed A.model) fill }
{
    A::whole(10).add(parts::<A>(115, 100).mul(fill))
}

pub(crate) fn wheel_width<A: Arithmetic>(fill: A, inside: A) -> A
    ensures { result ≡ wheel_width_of (computed A.model) fill inside }
{
    let along = A::whole(20).add(parts::<A>(115, 100).mul(fill));
    along.add(parts::<A>(6, 100).mul(inside))
}

pub(crate) fn truck_pressure<A: Arithmetic>(impact: A, load: A, length: A, width: A) -> A
    ensures { result ≡ truck_pressure_of (computed A.model) impact load length width }
{
    parts::<A>(12, 10)
        .mul(impact)
        .mul(load.div(length.mul(width)))
}

pub(crate) fn hoop_stiffness<A: Arithmetic>(modulus: A, centroid: A, long: A, gross: A) -> A
    ensures { result ≡ hoop_stiffness_of (computed A.model) modulus centroid long gross }
{
    let top = parts::<A>(9, 10).mul(modulus).mul(half(centroid));
    top.div(long.mul(gross))
}

pub(crate) fn arching<A: Arithmetic>(hoop: A) -> A
    ensures { result ≡ arching_of (computed A.model) hoop }
{
    let more = parts::<A>(29_039, 10_000).div(hoop.add(parts(292, 100)));
    parts::<A>(5, 100).add(more)
}

pub(crate) fn load_factor<A: Arithmetic>(installation: A) -> A
    ensures { result ≡ load_factor_of (computed A.model) installation }
{
    parts::<A>(13, 10).mul(installation)
}

pub(crate) fn length_share<A: Arithmetic>(length: A, outside: A) -> A
    ensures { result ≡ length_share_of (computed A.model) length outside }
{
    length.div(outside).smaller(A::whole(1))
}

pub(crate) fn spread_factor<A: Arithmetic>(length: A, outside: A, inside: A) -> A
    ensures { result ≡ spread_factor_of (computed A.model) length outside inside }
{
    let across = parts::<A>(75, 100).mul(outside).div(length);
    across.larger(A::whole(15).div(inside)).larger(A::whole(1))
}

pub(crate) fn hoop_factor<A: Arithmetic>(hoop: A) -> A
    ensures { result ≡ hoop_factor_of (computed A.model) hoop }
{
    let below = A::whole(1).add(parts::<A>(6, 10).mul(hoop));
    parts::<A>(95, 100).div(below)
}

pub(crate) fn live_thrust<A: Arithmetic>(share: A, spread: A, hoop: A, pressure: A, outside: A) -> A
    ensures { result ≡ live_thrust_of (computed A.model) share spread hoop pressure outside }
{
    half(share.mul(spread).mul(hoop).mul(pressure).mul(outside))
}

pub(crate) fn factored_thrust<A: Arithmetic>(load: A, outside: A) -> A
    ensures { result ≡ factored_thrust_of (computed A.model) load outside }
{
    half(parts::<A>(105, 100).mul(load).mul(outside))
}

pub(crate) fn thrust<A: Arithmetic>(load: A, outside: A) -> A
    ensures { result ≡ thrust_of (computed A.model) load outside }
{
    half(load.mul(outside))
}

pub(crate) fn live_part<A: Arithmetic>(thrust: A, modulus: A) -> A
    ensures { result ≡ live_part_of (computed A.model) thrust modulus }
{
    parts::<A>(175, 100).mul(thrust).div(modulus)
}

pub(crate) fn bending_factor<A: Arithmetic>(load: A, shape: A, face: A, centroid: A) -> A
    ensures { result ≡ bending_factor_of (computed A.model) load shape face centroid }
{
    load.mul(shape).mul(face).div(centroid)
}

pub(crate) fn resistance<A: Arithmetic>(modulus: A, moment: A, centroid: A, soil: A) -> A
    ensures { result ≡ resistance_of (computed A.model) modulus moment centroid soil }
{
    let ring = modulus.mul(moment).div(cube(half(centroid)));
    ring.add(parts::<A>(61, 1_000).mul(soil))
}

pub(crate) fn soil_deflection<A: Arithmetic>(prism: A, outside: A, resistance: A) -> A
    ensures { result ≡ soil_deflection_of (computed A.model) prism outside resistance }
{
    parts::<A>(15, 100).mul(prism).mul(outside).div(resistance)
}

pub(crate) fn live_deflection<A: Arithmetic>(share: A, pressure: A, outside: A, resistance: A) -> A
    ensures { result ≡ live_deflection_of (computed A.model) share pressure outside resistance }
{
    let load = parts::<A>(1, 10).mul(share).mul(pressure);
    load.mul(outside).div(resistance)
}
