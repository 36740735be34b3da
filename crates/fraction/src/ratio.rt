ghost use Rattle.std.specs.Prelude.{◌<◌};

/// A ratio of two whole numbers, the second above 0.
#[derive(Clone, Copy, Debug)]
pub struct Ratio {
    pub num: u128,
    pub den: u128,
    ghost positive: { 0 < den },
}
