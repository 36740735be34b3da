ghost use Rattle.std.specs.Prelude.{◌≡◌, ◌+◌, ◌*◌, ◌^◌, ◌<◌, ◌≤◌, length};
ghost use Rattle.fraction.specs.Fraction.{Same, whole, ◌⊘◌};
ghost use Rattle.fraction.specs.Ratio.{value};
ghost use Rattle.lookups.specs.Cell.{row_sum, Crossing};
ghost use Rattle.lookups.specs.Lookup.{support_at};
ghost use Rattle.lookups.specs.Operand.{modulus_of};
ghost use Rattle.records.specs.Lines.{grid_widths, grid_ratios, grid_factors};

use crate::axes::cell_of;
use crate::cell::Cell;
use crate::operand::Modulus;
use fraction::Ratio;
use records::{Section, Site, SupportGrid};

// The value of a row of factors at the cell, times the cell's whole weight.
#[tactic(auto, using(crate::proofs::Bilinear::row_bounds))]
fn row_sum(grid: &SupportGrid, row: usize, across: Cell) -> u128
    requires row { row < length (grid_ratios grid.now) }
    requires first { across.first < length (grid_widths grid.now) }
    requires second { across.second < length (grid_widths grid.now) }
    requires weights { across.after + across.before ≤ 120000000 }
    ensures value { result ≡ row_sum (grid_factors grid.now) (row * length (grid_widths grid.now)) across }
    ensures least { across.after + across.before ≤ result }
    ensures most { result ≤ 2000 * (across.after + across.before) }
{
    let factors = grid.factors();
    let start = row * grid.widths().len();
    across.weigh(
        factors[start + across.first] as u128,
        factors[start + across.second] as u128,
    )
}

// Two rows of factors, each weighed across, and then weighed along.
#[tactic(auto, using(crate::proofs::Bilinear::weights_fit, crate::proofs::Bilinear::weighed))]
fn crossed(grid: &SupportGrid, across: Cell, along: Cell) -> Ratio
    requires { Crossing (grid_widths grid.now) (grid_ratios grid.now) across along }
    ensures num { result.num ≡ row_sum (grid_factors grid.now) (along.first * length (grid_widths grid.now)) across * along.after
        + row_sum (grid_factors grid.now) (along.second * length (grid_widths grid.now)) across * along.before }
    ensures den { result.den ≡ 1000 * (across.after + across.before) * (along.after + along.before) }
    ensures least { result.den ≤ 1000 * result.num }
    ensures most { result.num ≤ 2 * result.den }
    ensures fits { result.den < 2 ^ 114 }
{
    let low = row_sum(grid, along.first, across);
    let high = row_sum(grid, along.second, across);
    Ratio {
        num: along.weigh(low, high),
        den: 1_000 * (across.after + across.before) * (along.after + along.before),
    }
}

// The trench width over the outside diameter, hundredths.
fn width_ratio(section: &Section, site: &Site) -> Ratio
    ensures num { result.num ≡ 100 * site.now.trench }
    ensures den { result.den ≡ section.now.outside }
{
    Ratio {
        num: 100 * site.trench as u128,
        den: section.outside as u128,
    }
}

// The native over the embedment's modulus, thousandths.
fn modulus_ratio(site: &Site, modulus: Modulus) -> Ratio
    ensures num { result.num ≡ 1000 * site.now.native_modulus * modulus.den }
    ensures den { result.den ≡ modulus.num }
{
    Ratio {
        num: 1_000 * site.native_modulus as u128 * modulus.den as u128,
        den: modulus.num as u128,
    }
}

/// The support factor of a grid at the trench width over the outside diameter and the native over the embedment's
/// modulus, exactly.
pub fn support_factor(grid: &SupportGrid, section: &Section, site: &Site, modulus: Modulus) -> Ratio
    ensures value { Same (value result)
        (support_at (grid_widths grid.now) (grid_ratios grid.now) (grid_factors grid.now)
        (whole site.now.trench ⊘ whole section.now.outside)
        (whole site.now.native_modulus ⊘ modulus_of modulus)) }
    ensures least { result.den ≤ 1000 * result.num }
    ensures most { result.num ≤ 2 * result.den }
    ensures fits { result.den < 2 ^ 114 }
{
    let across = cell_of(grid.widths(), width_ratio(section, site));
    let along = cell_of(grid.ratios(), modulus_ratio(site, modulus));
    crossed(grid, across, along)
}
