ghost use Rattle.std.specs.Prelude.{◌≡◌};
ghost use Rattle.std.specs.Option.{ok_or};
ghost use Rattle.book.specs.Register.{numbered, places, place_refusal};
ghost use Rattle.records.specs.Cause.{refused};
ghost use Rattle.records.specs.declared.fault.Cause.TheVariants.{Place};

use records::{Cause, Fault};

/// A kind of record.
#[derive(Clone, Copy, PartialEq, Eq, Debug)]
pub enum Kind {
    Section,
    Embedment,
    Shape,
    Grid,
    Site,
}

/// The kind of a number from 1 to 5.
impl TryFrom<u64> for Kind {
    type Error = Cause;

    ghost try_from_gives = { λ number result. result ≡ ok_or (numbered number) Place };

    fn try_from(number: u64) -> Result<Self, Cause> {
        match number {
            1 => Ok(Kind::Section),
            2 => Ok(Kind::Embedment),
            3 => Ok(Kind::Shape),
            4 => Ok(Kind::Grid),
            5 => Ok(Kind::Site),
            _ => Err(Cause::Place),
        }
    }
}

impl Kind {
    /// How many places a book has for the kind.
    pub fn places(self) -> u64
        ensures { result ≡ places self }
    {
        match self {
            Kind::Section | Kind::Embedment | Kind::Shape => 24,
            Kind::Grid => 4,
            Kind::Site => 96,
        }
    }
}

/// Refuses a place, in a field of the call, that is not from 1 to `count`.
pub fn check_place(field: u64, count: u64, place: u64) -> Result<(), Fault>
    ensures { refused result ≡ place_refusal field count place }
{
    if (1..=count).contains(&place) {
        Ok(())
    } else {
        Err(Fault {
            cause: Cause::Place,
            field,
        })
    }
}
