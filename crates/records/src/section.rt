ghost use Rattle.std.specs.Prelude.{◌≡◌, ◌<◌, ◌≤◌};
ghost use Rattle.records.specs.Cause.{answered, unless};
ghost use Rattle.records.specs.Section.{section_refusal};

use crate::fault::Fault;
use crate::fields::{Allowed, in_ranges};

/// A pipe section, of thermoplastic wall.
#[derive(Clone, Copy)]
pub struct Section {
    /// Inside diameter, mil.
    pub inside: u64,
    /// Diameter to the wall's centroid, mil.
    pub centroid: u64,
    /// Outside diameter, mil.
    pub outside: u64,
    /// Gross wall area, ten-thousandths of in²/in.
    pub gross_area: u64,
    /// Effective wall area, ten-thousandths of in²/in.
    pub effective_area: u64,
    /// Moment of inertia of the wall, millionths of in⁴/in.
    pub moment: u64,
    /// Short-term modulus, psi.
    pub short_modulus: u64,
    /// Long-term modulus, psi.
    pub long_modulus: u64,
    /// Compression strain limit, parts in 10,000.
    pub compression_limit: u64,
    /// Tension strain limit, parts in 10,000.
    pub tension_limit: u64,
    /// Pipe stiffness, hundredths of psi; 0 where it is not given.
    // Not an Option: the line states it so, and every promise speaks of the line.
    pub stiffness: u64,
    // Each order reads as one chain from its least to its most.
    ghost diameters: { (3000 ≤ inside) × (inside < centroid) × (centroid < outside) × (outside ≤ 120000) },
    ghost areas: { (100 ≤ effective_area) × (effective_area ≤ gross_area) × (gross_area ≤ 100000) },
    ghost moments: { (100 ≤ moment) × (moment ≤ 100000000) },
    ghost moduli: { (1000 ≤ long_modulus) × (long_modulus ≤ short_modulus) × (short_modulus ≤ 1000000) },
    ghost limits: { (1 ≤ compression_limit) × (compression_limit ≤ 2000) × (1 ≤ tension_limit) × (tension_limit ≤ 2000) },
    ghost stiffnesses: { stiffness ≤ 100000 },
}

// What the fields may hold.
const DIAMETER: Allowed = Allowed::Between(3_000, 120_000);

const AREA: Allowed = Allowed::Between(100, 100_000);

const MOMENT: Allowed = Allowed::Between(100, 100_000_000);

const MODULUS: Allowed = Allowed::Between(1_000, 1_000_000);

const STRAIN: Allowed = Allowed::Between(1, 2_000);

const STIFFNESS: Allowed = Allowed::Between(0, 100_000);

impl Section {
    ghost use Rattle.records.specs.Lines.{section_line};

    /// The section of these fields, as its line has them after the place, or why there is none.
    #[tactic(auto, using(crate::proofs::Sections::section_kept, crate::proofs::Sections::section_made))]
    pub fn new(fields: &[u64]) -> Result<Self, Fault>
        ensures { answered section_line result ≡ unless (section_refusal fields.now) fields.now }
    {
        let &[
            inside,
            centroid,
            outside,
            gross_area,
            effective_area,
            moment,
            short_modulus,
            long_modulus,
            compression_limit,
            tension_limit,
            stiffness,
        ] = fields
        else {
            return Err(Fault::MISCOUNTED);
        };
        in_ranges(
            &[
                DIAMETER, DIAMETER, DIAMETER, AREA, AREA, MOMENT, MODULUS, MODULUS, STRAIN, STRAIN,
                STIFFNESS,
            ],
            2,
            fields,
        )?;
        if inside >= centroid
            || centroid >= outside
            || effective_area > gross_area
            || long_modulus > short_modulus
        {
            return Err(Fault::DISORDERED);
        }
        Ok(Section {
            inside,
            centroid,
            outside,
            gross_area,
            effective_area,
            moment,
            short_modulus,
            long_modulus,
            compression_limit,
            tension_limit,
            stiffness,
        })
    }
}
