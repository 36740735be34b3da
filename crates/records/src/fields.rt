ghost use Rattle.std.specs.Prelude.{◌≡◌, ◌+◌, ◌^◌, ◌<◌, length};
ghost use Rattle.records.specs.Cause.{refused};
ghost use Rattle.records.specs.Fields.{allows, outside};

use crate::fault::{Cause, Fault};

/// What a field may hold.
#[derive(Clone, Copy)]
pub enum Allowed {
    /// From the first to the second, both included.
    Between(u64, u64),
    /// One of the three.
    Among(u64, u64, u64),
}

impl Allowed {
    fn allows(self, n: u64) -> bool
        ensures { result ≡ allows self n }
    {
        match self {
            Allowed::Between(least, most) => least <= n && n <= most,
            Allowed::Among(a, b, c) => n == a || n == b || n == c,
        }
    }
}

/// Whether each number is allowed: field `first` by the first of `allowed`, and so on in turn, round and round.
pub fn in_ranges(allowed: &[Allowed], first: u64, numbers: &[u64]) -> Result<(), Fault>
    requires some { 0 < length allowed.now }
    requires fits { first + length numbers.now < 2 ^ 64 }
    ensures { refused result ≡ outside allowed.now first numbers.now }
{
    for (i, (n, range)) in numbers.iter().zip(allowed.iter().cycle()).enumerate() {
        if !range.allows(*n) {
            return Err(Fault {
                cause: Cause::Range,
                field: first + i as u64,
            });
        }
    }
    Ok(())
}
