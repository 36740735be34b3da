ghost use Rattle.digits.specs.Radices.{binary, decimal};

use crate::span::Enclosure;
use rounding::Radix;

/// The radix 2.
#[derive(Clone, Copy)]
pub struct Two;

impl Radix for Two {
    ghost BASE = { 2 };

    ghost PLACES = { 30 };

    ghost FULL = { 1073741824 };

    ghost BIAS = { 180 };

    ghost lawful = { binary };

    const BASE: u64 = 2;

    const PLACES: u64 = 30;

    const FULL: u64 = 1 << 30;

    const BIAS: u64 = 180;
}

/// The radix 10.
#[derive(Clone, Copy)]
pub struct Ten;

impl Radix for Ten {
    ghost BASE = { 10 };

    ghost PLACES = { 8 };

    ghost FULL = { 100000000 };

    ghost BIAS = { 52 };

    ghost lawful = { decimal };

    const BASE: u64 = 10;

    const PLACES: u64 = 8;

    const FULL: u64 = 100_000_000;

    const BIAS: u64 = 52;
}

/// Thirty-one binary digits.
pub type Binary = Enclosure<Two>;

/// Nine decimal digits.
pub type Decimal = Enclosure<Ten>;
