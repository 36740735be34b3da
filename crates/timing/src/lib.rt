//! Loops for the benchmarks to time: each turn is two operations, eight of `whole`, or one judgement.
#![tactic(auto)]

use digits::{Binary, Decimal};
use enclosure::{Arithmetic, ReadOut};
use judging::{Verdict, judge};
use quantities::Case;
use records::{EmbedmentCurve, Fault, Section, ShapeCurve, Site, SupportGrid};

// What 355/113 comes to when each turn takes the step.
fn after<A: ReadOut, F: Fn(A) -> A>(turns: u64, step: F) -> u64
    requires { F.IsAlwaysCallable step }
{
    let start = A::whole(355).div(A::whole(113));
    let x = (0..turns).fold(start, |x, _| step(x));
    x.ceiling().unwrap_or(0)
}

fn products<A: ReadOut>(turns: u64) -> u64 {
    let y = A::whole(1_000_003).div(A::whole(7));
    after(turns, |x: A| x.mul(y).div(y))
}

fn sums<A: ReadOut>(turns: u64) -> u64 {
    let y = A::whole(1_000_003).div(A::whole(7_000));
    after(turns, |x: A| x.add(y).excess(y))
}

fn choices<A: ReadOut>(turns: u64) -> u64 {
    let y = A::whole(1_000_003).div(A::whole(7));
    after(turns, |x: A| x.larger(y).smaller(x))
}

fn wholes<A: ReadOut>(turns: u64) -> u64 {
    let x = (0..turns).fold(A::whole(0), |x, i| {
        let n = (i & 0xffff) + 1;
        x.larger(A::whole(n))
            .larger(A::whole(n ^ 1))
            .larger(A::whole(n ^ 2))
            .larger(A::whole(n ^ 3))
    });
    x.ceiling().unwrap_or(0)
}

// C has no type parameter, so it calls a function for each radix.
#[unsafe(no_mangle)]
pub extern "C" fn binary_products(turns: u64) -> u64 {
    products::<Binary>(turns)
}

#[unsafe(no_mangle)]
pub extern "C" fn decimal_products(turns: u64) -> u64 {
    products::<Decimal>(turns)
}

#[unsafe(no_mangle)]
pub extern "C" fn binary_sums(turns: u64) -> u64 {
    sums::<Binary>(turns)
}

#[unsafe(no_mangle)]
pub extern "C" fn decimal_sums(turns: u64) -> u64 {
    sums::<Decimal>(turns)
}

#[unsafe(no_mangle)]
pub extern "C" fn binary_choices(turns: u64) -> u64 {
    choices::<Binary>(turns)
}

#[unsafe(no_mangle)]
pub extern "C" fn decimal_choices(turns: u64) -> u64 {
    choices::<Decimal>(turns)
}

#[unsafe(no_mangle)]
pub extern "C" fn binary_wholes(turns: u64) -> u64 {
    wholes::<Binary>(turns)
}

#[unsafe(no_mangle)]
pub extern "C" fn decimal_wholes(turns: u64) -> u64 {
    wholes::<Decimal>(turns)
}

// How many of these cases are accepted: one section under fills that change from turn to turn.
fn accepted<A: Arithmetic>(turns: u64) -> Result<u64, Fault> {
    let section = Section::new(&[
        36_000, 38_500, 41_000, 6_500, 5_400, 1_520_000, 175_000, 28_000, 370, 250, 4_000,
    ])?;
    let embedment = EmbedmentCurve::new(&[2, 1_000, 1_625, 2_000, 1_800])?;
    let shape = ShapeCurve::new(&[2, 3_600, 350, 7_200, 280])?;
    let grid = SupportGrid::new(&[2, 2, 175, 200, 800, 1_000, 900, 930, 1_000, 1_000])?;
    let verdict = |fill: u64| -> Result<Verdict, Fault> {
        let site = Site::new(&[fill, 78_000, 50_000, 1_200, 1_360, 130, 150, 1_500, 0, 1])?;
        let case = Case::new(section, &embedment, &shape, &grid, site)?;
        Ok(judge::<A>(&case).verdict)
    };
    let count = (0..turns)
        .filter(|i| verdict(60_000 + (i & 0x3ffff)) == Ok(Verdict::Accepted))
        .count();
    Ok(count as u64)
}

#[unsafe(no_mangle)]
pub extern "C" fn binary_judgements(turns: u64) -> u64 {
    accepted::<Binary>(turns).unwrap_or(0)
}

#[unsafe(no_mangle)]
pub extern "C" fn decimal_judgements(turns: u64) -> u64 {
    accepted::<Decimal>(turns).unwrap_or(0)
}
