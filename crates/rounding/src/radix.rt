ghost use Rattle.std.specs.Prelude.{ℕ};
ghost use Rattle.rounding.specs.Radix.{Radix as Lawful};

/// A radix: its base, how many digits follow the first, the fineness that they give, and the exponent of one.
pub trait Radix: Copy {
    ghost BASE: { ℕ };

    ghost PLACES: { ℕ };

    ghost FULL: { ℕ };

    ghost BIAS: { ℕ };

    ghost lawful: { Lawful BASE PLACES FULL BIAS };

    const BASE: u64;

    const PLACES: u64;

    const FULL: u64;

    const BIAS: u64;
}
