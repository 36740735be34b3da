//! Sheets and marks in both arithmetics. The expected states and figures were computed apart, in exact fractions.
use crate::sample::{SECTION, on_case};
use digits::{Binary, Decimal};
use enclosure::ReadOut;
use judging::{Claimed, Figure, Mark, Sheet, State, Verdict, figure, judge, mark};
use quantities::Case;
use std::process::Abort;
use std::test::Fail;

// A sheet is a row of letters here, the verdict first: a table of rows is easier to check against the computation apart
// than eight named fields a sheet.
fn letter(state: State) -> u8 {
    match state {
        State::Holds => b'H',
        State::Fails => b'F',
        State::Undecided => b'U',
        State::NotApplied => b'N',
    }
}

fn letters(s: Sheet) -> [u8; 8] {
    let verdict = match s.verdict {
        Verdict::Accepted => b'A',
        Verdict::Rejected(_) => b'R',
        Verdict::Undecided => b'U',
    };
    [
        verdict,
        letter(s.thrust),
        letter(s.net_tension),
        letter(s.combined),
        letter(s.deflection),
        letter(s.buckling),
        letter(s.flexibility),
        letter(s.buoyancy),
    ]
}

// The sheet of the section on the site, in both arithmetics.
fn check_sheet(
    rt: &impl Abort,
    section: &[u64],
    site: &[u64],
    expected: &[u8; 8],
) -> Result<(), Fail> {
    let binary = on_case(section, site, |case| judge::<Binary>(case))?;
    let decimal = on_case(section, site, |case| judge::<Decimal>(case))?;
    assert_eq!(rt; letters(binary), *expected);
    assert_eq!(rt; letters(decimal), *expected);
    Ok(())
}

#[test]
fn the_two_sample_cases(rt: HostRuntime) -> Result<(), Fail> {
    check_sheet(
        &rt,
        &SECTION,
        &[180_000, 78_000, 96_000, 1_200, 1_360, 130, 150, 1_500, 0, 1],
        b"AHHHHHHH",
    )?;
    check_sheet(
        &rt,
        &SECTION,
        &[480_000, 78_000, 96_000, 1_200, 1_360, 130, 150, 1_500, 0, 0],
        b"RFHFFHHH",
    )
}

#[test]
fn loads_and_water(rt: HostRuntime) -> Result<(), Fail> {
    // no water, and water to the crown
    check_sheet(
        &rt,
        &SECTION,
        &[180_000, 78_000, 0, 1_200, 1_360, 130, 150, 1_500, 0, 1],
        b"AHHHHHHN",
    )?;
    check_sheet(
        &rt,
        &SECTION,
        &[180_000, 78_000, 20_500, 1_200, 1_360, 130, 150, 1_500, 0, 1],
        b"AHHHHHHH",
    )?;
    // one wheel, two wheels, a truck too deep, no load
    check_sheet(
        &rt,
        &SECTION,
        &[43_339, 78_000, 0, 1_200, 1_360, 130, 150, 1_500, 0, 1],
        b"AHHHHHHN",
    )?;
    check_sheet(
        &rt,
        &SECTION,
        &[43_340, 78_000, 0, 1_200, 1_360, 130, 150, 1_500, 0, 1],
        b"AHHHHHHN",
    )?;
    check_sheet(
        &rt,
        &SECTION,
        &[96_001, 78_000, 0, 1_200, 1_360, 130, 150, 1_500, 0, 1],
        b"AHHHHHHN",
    )?;
    check_sheet(
        &rt,
        &SECTION,
        &[30_000, 78_000, 0, 1_200, 1_360, 130, 150, 1_500, 0, 0],
        b"AHHHHHHN",
    )?;
    // a light soil over a wide pipe floats
    check_sheet(
        &rt,
        &SECTION,
        &[13_000, 78_000, 20_000, 500, 800, 130, 150, 1_500, 0, 1],
        b"RHHHHHHF",
    )
}

#[test]
fn support_and_lookups(rt: HostRuntime) -> Result<(), Fail> {
    // a trench of three diameters, and shallow stable walls
    check_sheet(
        &rt,
        &SECTION,
        &[
            180_000, 123_000, 96_000, 1_200, 1_360, 130, 150, 1_500, 0, 1,
        ],
        b"AHHHHHHH",
    )?;
    check_sheet(
        &rt,
        &SECTION,
        &[119_999, 78_000, 96_000, 1_200, 1_360, 130, 150, 1_500, 1, 1],
        b"AHHHHHHH",
    )?;
    // beyond both ends of the embedment curve, and of the grid
    check_sheet(
        &rt,
        &SECTION,
        &[60_000, 78_000, 0, 1_200, 1_360, 130, 150, 1_500, 0, 1],
        b"AHHHHHHN",
    )?;
    check_sheet(
        &rt,
        &SECTION,
        &[480_000, 78_000, 0, 1_200, 1_360, 130, 150, 1_500, 0, 1],
        b"RFHFFHHN",
    )?;
    check_sheet(
        &rt,
        &SECTION,
        &[
            180_000, 60_000, 96_000, 1_200, 1_360, 130, 150, 50_000, 0, 1,
        ],
        b"AHHHHHHH",
    )?;
    check_sheet(
        &rt,
        &SECTION,
        &[180_000, 120_000, 96_000, 1_200, 1_360, 130, 150, 50, 0, 1],
        b"AHHHHHHH",
    )
}

#[test]
fn sections(rt: HostRuntime) -> Result<(), Fail> {
    let site = [180_000, 78_000, 96_000, 1_200, 1_360, 130, 150, 1_500, 0, 1];
    // a stiffness that is computed, below and beyond the shape curve
    check_sheet(
        &rt,
        &[
            36_000, 38_500, 41_000, 6_500, 5_400, 1_520_000, 175_000, 28_000, 370, 250, 0,
        ],
        &site,
        b"AHHHHHHH",
    )?;
    check_sheet(
        &rt,
        &[
            36_000, 38_500, 41_000, 6_500, 5_400, 1_520_000, 175_000, 28_000, 370, 250, 1_000,
        ],
        &site,
        b"AHHHHHHH",
    )?;
    check_sheet(
        &rt,
        &[
            36_000, 38_500, 41_000, 6_500, 5_400, 1_520_000, 175_000, 28_000, 370, 250, 9_000,
        ],
        &site,
        b"AHHHHHHH",
    )?;
    // a wall that buckles and is too flexible, one too thin, one with little tension strength
    check_sheet(
        &rt,
        &[
            36_000, 38_500, 41_000, 6_500, 5_400, 100, 175_000, 28_000, 370, 250, 4_000,
        ],
        &site,
        b"RHHHHFFH",
    )?;
    check_sheet(
        &rt,
        &[
            36_000, 38_500, 41_000, 100, 100, 1_520_000, 175_000, 28_000, 370, 250, 4_000,
        ],
        &site,
        b"RFHFFHHH",
    )?;
    check_sheet(
        &rt,
        &[
            36_000, 38_500, 41_000, 6_500, 5_400, 1_520_000, 175_000, 28_000, 370, 1, 4_000,
        ],
        &[13_000, 78_000, 0, 500, 1_360, 130, 150, 1_500, 0, 0],
        b"RHFHHHHN",
    )
}

const SITE: [u64; 10] = [180_000, 78_000, 96_000, 1_200, 1_360, 130, 150, 1_500, 0, 1];

const CLAIMS: [(u64, Option<Mark>); 7] = [
    (10_700_000, Some(Mark::Right)),
    (10_000_000, Some(Mark::Wrong)),
    (10_559_185, Some(Mark::Wrong)),
    (10_559_187, Some(Mark::Right)),
    (10_772_502, Some(Mark::Right)),
    (10_772_503, Some(Mark::Wrong)),
    (0, None),
];

// The prism pressure of the first sample case, and the marks of the claims on it.
fn marked<A: ReadOut>(case: &Case) -> ((u64, u64), [Option<Mark>; 7]) {
    let read = figure::<A>(case, Figure::PrismPressure);
    let marks = CLAIMS.map(|(claim, _)| {
        Claimed::new(claim).map(|claim| mark::<A>(case, Figure::PrismPressure, claim))
    });
    (read, marks)
}

// The exact prism pressure is 10,664,777 and 7/9 millionths: 100/101 of it is 10,559,185.9.., 100/99 of it 10,772,502.8..
#[test]
fn claims_at_both_edges(rt: HostRuntime) -> Result<(), Fail> {
    let expected = ((10_664_777, 10_664_778), CLAIMS.map(|(_, mark)| mark));
    let binary = on_case(&SECTION, &SITE, |case| marked::<Binary>(case))?;
    let decimal = on_case(&SECTION, &SITE, |case| marked::<Decimal>(case))?;
    assert_eq!(rt; binary, expected);
    assert_eq!(rt; decimal, expected);
    Ok(())
}
