ghost use Rattle.std.specs.Prelude.{◌^◌, ◌≤◌};

/// What a claim says that a figure is, in millionths: from 1 to 10^13.
#[derive(Clone, Copy)]
pub struct Claimed {
    pub(crate) value: u64,
    ghost some: { 1 ≤ value },
    ghost most: { value ≤ 10 ^ 13 },
}

impl Claimed {
    ghost use Rattle.std.specs.Prelude.{◌≡◌};
    ghost use Rattle.judging.specs.Claim.{claimed, stated_claim};

    /// A claim of this many millionths, from 1 to 10^13.
    pub fn new(value: u64) -> Option<Self>
        ensures { stated_claim result ≡ claimed value }
    {
        if value == 0 || value > 10_000_000_000_000 {
            return None;
        }
        Some(Claimed { value })
    }
}
