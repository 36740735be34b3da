ghost use Rattle.std.specs.Prelude.{◌≡◌, ◌*◌, ◌<◌, T, length};
ghost use Rattle.records.specs.Cause.{refused, answered, unless};
ghost use Rattle.records.specs.Curve.{holds, chained};
ghost use Rattle.records.specs.Grid.{rising, column, columns_hold, values_refusal, lawful_lists, grid_complete, grid_refusal};
ghost use Rattle.records.specs.ShortList.{in_use};

use crate::fault::Fault;
use crate::fields::{Allowed, in_ranges};
use crate::point::{Point, Rule};
use crate::short_list::ShortList;

/// The lists of a grid's line, lent to be tested.
#[derive(Clone, Copy)]
struct Lists<'a> {
    widths: &'a [u64],
    ratios: &'a [u64],
    factors: &'a [u64],
    ghost full: { length factors.now ≡ length ratios.now * length widths.now },
}

/// How far the native soil and the trench support the embedment.
#[derive(Clone, Copy)]
pub struct SupportGrid {
    /// Trench width over outside diameter, hundredths.
    widths: ShortList<u64, 6>,
    /// Native over embedment modulus, thousandths.
    ratios: ShortList<u64, 6>,
    /// Support factors, thousandths: a row of the widths for each modulus ratio.
    factors: ShortList<u64, 36>,
    ghost full: { length (in_use factors) ≡ length (in_use ratios) * length (in_use widths) },
    ghost lawful: { T (lawful_lists (in_use widths) (in_use ratios) (in_use factors)) },
}

fn is_rising(numbers: &[u64]) -> bool
    ensures { result ≡ rising numbers.now }
{
    numbers.is_sorted_by(|n, next| n < next)
}

impl<'a> Lists<'a> {
    // Whether a rule holds along the modulus ratio at one of the widths.
    fn column_holds(&self, rule: Rule, place: usize) -> bool
        requires { place < length self.now.widths.now }
        ensures { result ≡ chained (holds rule) (column (length self.now.widths.now) place self.now.ratios.now self.now.factors.now) }
    {
        let mut above: Option<Point> = None;
        let mut rows = self.factors;
        for ratio in self.ratios {
            let (row, below) = rows.split_at(self.widths.len());
            let point = Point {
                x: *ratio,
                y: row[place],
            };
            if above.is_some_and(|above| !rule.holds(above, point)) {
                return false;
            }
            above = Some(point);
            rows = below;
        }
        true
    }

    // Whether a rule holds along the modulus ratio at every width.
    fn columns_hold(&self, rule: Rule) -> bool
        ensures { result ≡ columns_hold rule self.now.widths.now self.now.ratios.now self.now.factors.now }
    {
        (0..self.widths.len()).all(|place| self.column_holds(rule, place))
    }

    // Why the values make no grid.
    fn check(&self) -> Result<(), Fault>
        ensures { refused result ≡ values_refusal self.now.widths.now self.now.ratios.now self.now.factors.now }
    {
        let ratio_field = 4 + self.widths.len() as u64;
        let factor_field = ratio_field + self.ratios.len() as u64;
        in_ranges(&[Allowed::Between(100, 1_000)], 4, self.widths)?;
        in_ranges(&[Allowed::Between(5, 5_000)], ratio_field, self.ratios)?;
        in_ranges(&[Allowed::Between(1, 2_000)], factor_field, self.factors)?;
        if !is_rising(self.widths) || !self.columns_hold(Rule::NeverFalling) {
            return Err(Fault::DISORDERED);
        }
        if !self.columns_hold(Rule::Gentle) {
            return Err(Fault::TOO_STEEP);
        }
        Ok(())
    }
}

/// Whether a grid's line has the fields that its counts ask for.
pub fn grid_complete(fields: &[u64]) -> bool
    ensures { result ≡ grid_complete fields.now }
{
    match fields {
        [wide, deep, rest @ ..] => {
            let wide = *wide as u128;
            let deep = *deep as u128;
            rest.len() as u128 == wide + deep + deep * wide
        }
        _ => false,
    }
}

impl SupportGrid {
    ghost use Rattle.records.specs.Lines.{grid_line, grid_widths, grid_ratios, grid_factors};

    /// The grid of these fields, as its line has them after the place, or why there is none.
    pub fn new(fields: &[u64]) -> Result<Self, Fault>
        ensures { answered grid_line result ≡ unless (grid_refusal fields.now) fields.now }
    {
        if !grid_complete(fields) {
            return Err(Fault::MISCOUNTED);
        }
        in_ranges(&[Allowed::Between(1, 6)], 2, &fields[..2])?;
        let (widths, rest) = fields[2..].split_at(fields[0] as usize);
        let (ratios, factors) = rest.split_at(fields[1] as usize);
        let lists = Lists {
            widths,
            ratios,
            factors,
        };
        lists.check()?;
        Ok(SupportGrid {
            widths: ShortList::from_slice(widths),
            ratios: ShortList::from_slice(ratios),
            factors: ShortList::from_slice(factors),
        })
    }

    /// The width ratios in use.
    pub fn widths(&self) -> &[u64]
        ensures { result.now ≡ grid_widths self.now }
    {
        self.widths.as_slice()
    }

    /// The modulus ratios in use.
    pub fn ratios(&self) -> &[u64]
        ensures { result.now ≡ grid_ratios self.now }
    {
        self.ratios.as_slice()
    }

    /// The factors in use, a row for each modulus ratio.
    pub fn factors(&self) -> &[u64]
        ensures { result.now ≡ grid_factors self.now }
    {
        self.factors.as_slice()
    }
}
