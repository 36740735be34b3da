//! Takes a worked example of buried-pipe design through the library, and prints each step: a 36-inch polypropylene
//! storm drain under 15 feet of fill, with water 8 feet above its springline.
#![tactic(auto)]

ghost use Rattle.std.specs.Prelude.{◌≡◌};
ghost use Rattle.handbook.specs.Example.{Bounded, agrees, bounds_agree, hydrostatic_pressure, prism_pressure};
ghost use Rattle.fraction.specs.Fraction.{Same};
ghost use Rattle.fraction.specs.Ratio.{value};

use digits::{Binary, Decimal};
use enclosure::{Arithmetic, ReadOut, wide};
use fraction::Ratio;
use judging::{Figure, figure};
use quantities::Case;
use records::{EmbedmentCurve, Fault, Section, ShapeCurve, Site, SupportGrid};
use std::io;
use thiserror::Error;

/// The example's site and pipe, in mil, tenths of pcf and hundredths.
const FILL: u64 = 180_000;

const OUTSIDE: u64 = 41_000;

const WATER: u64 = 96_000;

const MOIST: u64 = 1_200;

const SATURATED: u64 = 1_360;

const WATER_FACTOR: u64 = 130;

/// The weight of water, tenths of pcf.
const WATER_WEIGHT: u64 = 624;

/// The soil prism's pressure, psi: moist soil above the water, and buoyant soil below it, to the crown and 0.11 of the
/// outside diameter further.
fn prism_pressure() -> Ratio
    ensures { Same (value result) prism_pressure }
{
    let over = 2 * WATER - OUTSIDE;
    let dry = 100 * (2 * FILL - over) * MOIST;
    let wet = (100 * over + 22 * OUTSIDE) * (SATURATED - WATER_WEIGHT);
    Ratio {
        num: (dry + wet) as u128,
        den: 3_456_000_000,
    }
}

/// The water's pressure at the springline, psi, raised by the factor on its depth; never deeper than the ground.
fn hydrostatic_pressure() -> Ratio
    ensures { Same (value result) hydrostatic_pressure }
{
    let depth = (2 * WATER_FACTOR * WATER).min(100 * (2 * FILL + OUTSIDE));
    Ratio {
        num: (WATER_WEIGHT * depth) as u128,
        den: 3_456_000_000,
    }
}

/// The whole numbers below and above a ratio in millionths, as an arithmetic encloses it.
fn in_millionths<A: ReadOut>(x: Ratio) -> (Option<u64>, Option<u64>)
    ensures { Bounded x result }
{
    let ratio = wide::<A>(x.num).div(wide(x.den));
    let millionths = ratio.mul(A::whole(1_000_000));
    (millionths.floor(), millionths.ceiling())
}

/// Whether a ratio is within 2 in 100 of a printed number of tenths.
fn is_within(x: Ratio, printed: u32) -> bool
    ensures { result ≡ agrees (value x) printed }
{
    let least = Ratio {
        num: 98 * printed as u128,
        den: 1_000,
    };
    let most = Ratio {
        num: 102 * printed as u128,
        den: 1_000,
    };
    least <= x && x <= most
}

/// Whether both bounds are within 2 in 100 of a printed number of millionths, and so what lies between them.
fn bounds_agree(bounds: (u64, u64), printed: u64) -> bool
    ensures { result ≡ bounds_agree bounds.0 bounds.1 printed }
{
    let printed = printed as u128;
    98 * printed <= 100 * bounds.0 as u128 && 100 * bounds.1 as u128 <= 102 * printed
}

fn answer(agrees: bool) -> &'static str {
    if agrees { "yes" } else { "no" }
}

fn print_bounds(rt: &impl Print, arithmetic: &str, bounds: Option<(u64, u64)>) -> io::Result<()> {
    let Some((below, above)) = bounds else {
        return println!(rt; "  {arithmetic}: past what can be read");
    };
    println!(rt; "  {arithmetic}: from {below} to {above} millionths")
}

fn print_pressure(rt: &impl Print, name: &str, x: Ratio, printed: u32) -> io::Result<()> {
    let Ratio { num, den } = x;
    println!(rt; "{name}, psi")?;
    println!(rt; "  exact: {num}/{den}")?;
    let (below, above) = in_millionths::<Binary>(x);
    print_bounds(rt, "binary", below.zip(above))?;
    let (below, above) = in_millionths::<Decimal>(x);
    print_bounds(rt, "decimal", below.zip(above))?;
    let whole = printed / 10;
    let tenths = printed % 10;
    let verdict = answer(is_within(x, printed));
    println!(rt; "  printed: {whole}.{tenths}; within 2 in 100: {verdict}")
}

/// A figure of the case from both arithmetics, beside the number printed for it, in hundredths.
fn print_figure(
    rt: &impl Print,
    name: &str,
    case: &Case,
    wanted: Figure,
    printed: u32,
) -> io::Result<()> {
    let binary = figure::<Binary>(case, wanted);
    let decimal = figure::<Decimal>(case, wanted);
    println!(rt; "{name}")?;
    print_bounds(rt, "binary", Some(binary))?;
    print_bounds(rt, "decimal", Some(decimal))?;
    let whole = printed / 100;
    let hundredths = printed % 100;
    let millionths = 10_000 * printed as u64;
    let verdict = answer(bounds_agree(binary, millionths) && bounds_agree(decimal, millionths));
    println!(rt; "  printed: {whole}.{hundredths:02}; within 2 in 100: {verdict}")
}

/// Why the program stops early.
// Its own type, and no `anyhow::Error`: what standard error then shows is how this one is written.
#[derive(Debug, Drop, Error)]
enum Stop {
    #[error(transparent)]
    Refused(#[from] Fault),
    #[error(transparent)]
    Output(#[from] io::Error),
}

fn print_figures(rt: &impl Print) -> Result<(), Stop> {
    let section = Section::new(&[
        36_000, 38_500, OUTSIDE, 6_500, 5_400, 1_520_000, 175_000, 28_000, 370, 250, 4_000,
    ])?;
    let embedment = EmbedmentCurve::new(&[2, 1_000, 1_625, 2_000, 1_800])?;
    let shape = ShapeCurve::new(&[2, 3_600, 350, 7_200, 280])?;
    let grid = SupportGrid::new(&[2, 2, 175, 200, 800, 1_000, 900, 930, 1_000, 1_000])?;
    let site = Site::new(&[
        FILL,
        78_000,
        WATER,
        MOIST,
        SATURATED,
        WATER_FACTOR,
        150,
        1_500,
        0,
        1,
    ])?;
    let case = Case::new(section, &embedment, &shape, &grid, site)?;
    for (name, figure, printed) in [
        ("Prism pressure Psp, psi", Figure::PrismPressure, 1_070),
        ("Soil modulus Ms, psi", Figure::SoilModulus, 158_300),
        ("Hoop stiffness factor SH", Figure::HoopStiffness, 151),
        ("Vertical arching factor VAF", Figure::VerticalArching, 70),
        ("Design thrust TD, lbf/in", Figure::DesignThrust, 41_000),
    ] {
        print_figure(rt, name, &case, figure, printed)?;
    }
    Ok(())
}

fn main(rt: HostRuntime) -> Result<(), Stop> {
    println!(rt; "A 36-inch polypropylene storm drain under 15 feet of fill")?;
    println!(rt; "  fill {FILL} mil, outside diameter {OUTSIDE} mil")?;
    println!(rt; "  water {WATER} mil above the springline, its depth times {WATER_FACTOR}/100")?;
    println!(rt; "  soil {MOIST}/10 pcf moist, {SATURATED}/10 pcf saturated")?;
    println!(rt; "The pressures, from whole numbers")?;
    print_pressure(&rt, "Soil prism pressure", prism_pressure(), 107)?;
    print_pressure(&rt, "Hydrostatic pressure", hydrostatic_pressure(), 45)?;
    println!(rt; "Five figures, from the records of the case")?;
    print_figures(&rt)
}
