ghost use Rattle.std.specs.Prelude.{◌≡◌, ◌≤◌, true, MatchBool};
ghost use Rattle.records.specs.Cause.{answered, unless};
ghost use Rattle.records.specs.Fields.{allows};
ghost use Rattle.records.specs.Site.{site_refusal};
ghost use Rattle.records.specs.declared.fields.Allowed.TheVariants.{Among};

use crate::fault::Fault;
use crate::fields::{Allowed, in_ranges};

/// What rolls over the pipe.
// Not an Option: none is one of the loads that a line can state.
#[derive(Clone, Copy, PartialEq, Eq, Debug)]
pub enum LiveLoad {
    None,
    Truck,
}

/// Whether a truck does.
impl From<bool> for LiveLoad {
    ghost use Rattle.records.specs.declared.site.LiveLoad.TheVariants.{None, Truck};

    ghost from_gives = { λ truck load. MatchBool truck (load ≡ Truck) (load ≡ None) };

    fn from(truck: bool) -> Self {
        if truck {
            LiveLoad::Truck
        } else {
            LiveLoad::None
        }
    }
}

/// Where a pipe is laid.
#[derive(Clone, Copy)]
pub struct Site {
    /// Fill over the pipe's crown, mil.
    pub fill: u64,
    /// Width of the trench, mil.
    pub trench: u64,
    /// Water above the springline, mil.
    pub water: u64,
    /// Weight of the moist soil, tenths of pcf.
    pub moist_weight: u64,
    /// Weight of the saturated soil, tenths of pcf.
    pub saturated_weight: u64,
    /// Factor on the water's depth, hundredths.
    pub water_factor: u64,
    /// Installation factor on the earth load, hundredths.
    pub installation_factor: u64,
    /// Modulus of the native soil, psi.
    pub native_modulus: u64,
    /// Whether the trench walls stand.
    pub stable_walls: bool,
    pub live_load: LiveLoad,
    // The two bounds of a range stand together.
    ghost fills: { (12001 ≤ fill) × (fill ≤ 1200000) },
    ghost trenches: { (1 ≤ trench) × (trench ≤ 1200000) },
    ghost waters: { water ≤ 1260000 },
    ghost weights: { (500 ≤ moist_weight) × (moist_weight ≤ 2000) × (800 ≤ saturated_weight) × (saturated_weight ≤ 2000) },
    ghost factors: { (100 ≤ water_factor) × (water_factor ≤ 130) },
    ghost installations: { (115 ≤ installation_factor) × (installation_factor ≤ 150) × (true ≡ allows (Among 115 135 150) installation_factor) },
    ghost natives: { (50 ≤ native_modulus) × (native_modulus ≤ 50000) },
}

impl Site {
    ghost use Rattle.records.specs.Lines.{site_line};

    /// The site of these fields, as its line has them after the place, or why there is none.
    #[tactic(auto, using(crate::proofs::Sites::site_kept, crate::proofs::Sites::site_made))]
    pub fn new(fields: &[u64]) -> Result<Self, Fault>
        ensures { answered site_line result ≡ unless (site_refusal fields.now) fields.now }
    {
        let &[
            fill,
            trench,
            water,
            moist_weight,
            saturated_weight,
            water_factor,
            installation_factor,
            native_modulus,
            walls,
            live_load,
        ] = fields
        else {
            return Err(Fault::MISCOUNTED);
        };
        in_ranges(
            &[
                Allowed::Between(12_001, 1_200_000),
                Allowed::Between(1, 1_200_000),
                Allowed::Between(0, 1_260_000),
                Allowed::Between(500, 2_000),
                Allowed::Between(800, 2_000),
                Allowed::Between(100, 130),
                Allowed::Among(115, 135, 150),
                Allowed::Between(50, 50_000),
                Allowed::Between(0, 1),
                Allowed::Between(0, 1),
            ],
            2,
            fields,
        )?;
        Ok(Site {
            fill,
            trench,
            water,
            moist_weight,
            saturated_weight,
            water_factor,
            installation_factor,
            native_modulus,
            stable_walls: walls == 1,
            live_load: LiveLoad::from(live_load == 1),
        })
    }
}
