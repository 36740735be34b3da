use fraction::Ratio;
use lookups::{Modulus, Pressure, Stiffness, embedment_modulus, shape_factor, support_factor};
use records::{EmbedmentCurve, Section, ShapeCurve, Site, SupportGrid};
use std::test::Fail;

#[test]
fn moduli(rt: HostRuntime) -> Result<(), Fail> {
    let curve = EmbedmentCurve::new(&[2, 1_000, 1_625, 2_000, 1_800])?;
    let at = |pressure: Pressure| Some(Ratio::from(embedment_modulus(&curve, pressure)));
    assert_eq!(rt; at(Pressure { num: 1, den: 3 }), Ratio::new(1_625, 1));
    assert_eq!(rt; at(Pressure { num: 10, den: 1 }), Ratio::new(1_625, 1));
    assert_eq!(rt; at(Pressure { num: 15, den: 1 }), Ratio::new(17_125, 10));
    assert_eq!(rt;
        at(Pressure { num: 46, den: 3 }),
        Ratio::new(1_625 * 3_000 + 175 * 1_600, 3_000)
    );
    assert_eq!(rt; at(Pressure { num: 20, den: 1 }), Ratio::new(1_800, 1));
    assert_eq!(rt; at(Pressure { num: 60, den: 1 }), Ratio::new(1_800, 1));
    Ok(())
}

#[test]
fn shapes(rt: HostRuntime) -> Result<(), Fail> {
    let curve = ShapeCurve::new(&[2, 3_600, 350, 7_200, 280])?;
    let at = |stiffness: Stiffness| Some(shape_factor(&curve, stiffness));
    assert_eq!(rt; at(Stiffness { num: 0, den: 1 }), Ratio::new(35, 10));
    assert_eq!(rt; at(Stiffness { num: 4_000, den: 1 }), Ratio::new(154, 45));
    assert_eq!(rt;
        at(Stiffness {
            num: 12_000,
            den: 3
        }),
        Ratio::new(154, 45)
    );
    assert_eq!(rt; at(Stiffness { num: 7_201, den: 1 }), Ratio::new(28, 10));
    Ok(())
}

#[test]
fn supports(rt: HostRuntime) -> Result<(), Fail> {
    let grid = SupportGrid::new(&[2, 2, 175, 200, 800, 1_000, 900, 930, 1_000, 1_000])?;
    let section = Section::new(&[
        36_000, 38_000, 40_000, 6_500, 5_400, 1_520_000, 175_000, 28_000, 370, 250, 4_000,
    ])?;
    let at = |site: &Site, modulus: Modulus| Some(support_factor(&grid, &section, site, modulus));
    let site = Site::new(&[180_000, 75_000, 96_000, 1_200, 1_360, 130, 150, 900, 0, 1])?;
    assert_eq!(rt;
        at(&site, Modulus { num: 1_000, den: 1 }),
        Ratio::new(9_575, 10_000)
    );
    let wide = Site::new(&[180_000, 80_000, 96_000, 1_200, 1_360, 130, 150, 800, 0, 1])?;
    assert_eq!(rt;
        at(&wide, Modulus { num: 1_000, den: 1 }),
        Ratio::new(930, 1_000)
    );
    assert_eq!(rt; at(&wide, Modulus { num: 800, den: 1 }), Ratio::new(1, 1));
    Ok(())
}
