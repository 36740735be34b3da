use quantities::Case;
use records::{EmbedmentCurve, Fault, Section, ShapeCurve, Site, SupportGrid};

pub const SECTION: [u64; 11] = [
    36_000, 38_500, 41_000, 6_500, 5_400, 1_520_000, 175_000, 28_000, 370, 250, 4_000,
];

/// Asks of the case of this section on this site, with the sample's curves and grid.
pub fn on_case<T, F: FnOnce(&Case) -> T>(section: &[u64], site: &[u64], ask: F) -> Result<T, Fault>
    requires { F.IsAlwaysCallable ask }
{
    let section = Section::new(section)?;
    let embedment = EmbedmentCurve::new(&[2, 1_000, 1_625, 2_000, 1_800])?;
    let shape = ShapeCurve::new(&[2, 3_600, 350, 7_200, 280])?;
    let grid = SupportGrid::new(&[2, 2, 175, 200, 800, 1_000, 900, 930, 1_000, 1_000])?;
    let site = Site::new(site)?;
    let case = Case::new(section, &embedment, &shape, &grid, site)?;
    Ok(ask(&case))
}
