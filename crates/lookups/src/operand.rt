ghost use Rattle.std.specs.Prelude.{◌≡◌, ◌*◌, ◌<◌, ◌≤◌};

use fraction::Ratio;

// Three types, and not one ratio: each has its unit in its name, and its bounds in its ghost fields.

/// A pressure of `num / den` psi.
#[derive(Clone, Copy)]
pub struct Pressure {
    pub num: u64,
    pub den: u64,
    ghost positive: { 0 < den },
    ghost scale: { den ≤ 3456000000 },
}

/// A pipe stiffness of `num / den` hundredths of psi.
#[derive(Clone, Copy)]
pub struct Stiffness {
    pub num: u128,
    pub den: u64,
    ghost positive: { 0 < den },
}

/// A modulus of the embedment, `num / den` psi.
#[derive(Clone, Copy)]
pub struct Modulus {
    pub num: u64,
    pub den: u64,
    ghost positive: { 0 < den },
    ghost least: { 50 * den ≤ num },
    ghost most: { num ≤ 50000 * den },
    ghost fits: { den ≤ 69120000000000 },
}

/// In hundredths of psi.
impl From<Stiffness> for Ratio {
    ghost from_gives = { λ stiffness ratio. (ratio.num ≡ stiffness.num) × (ratio.den ≡ stiffness.den) };

    fn from(stiffness: Stiffness) -> Self {
        Ratio {
            num: stiffness.num,
            den: stiffness.den as u128,
        }
    }
}

/// In psi.
impl From<Modulus> for Ratio {
    ghost from_gives = { λ modulus ratio. (ratio.num ≡ modulus.num) × (ratio.den ≡ modulus.den) };

    fn from(modulus: Modulus) -> Self {
        Ratio {
            num: modulus.num as u128,
            den: modulus.den as u128,
        }
    }
}
