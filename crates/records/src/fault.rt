ghost use Rattle.std.specs.Prelude.{◌≡◌};
ghost use Rattle.records.specs.Cause.{number};

use std::error::Error;
use std::fmt;
use std::fmt::{Display, Formatter, Write};

/// Why a call, a line or a paper is refused.
#[derive(Clone, Copy, PartialEq, Eq, Debug)]
pub enum Cause {
    /// A place outside its count, or no kind of record.
    Place = 1,
    /// A field or a count outside its range.
    Range = 2,
    /// An ordering rule of the record is broken.
    Order = 3,
    /// A curve or a grid is too steep.
    Steep = 4,
    /// Nothing to use or withdraw at the place.
    Empty = 5,
    /// A trench no wider than the pipe.
    Trench = 6,
    /// Water above the ground.
    Water = 7,
    /// No such figure.
    Figure = 8,
    /// A claim of 0, or too large a claim.
    Claim = 9,
    /// The tallies and the new claims are too many.
    Tally = 10,
    /// A letter, a number of fields or a number badly written.
    Writing = 11,
    /// A line or a call of the other part.
    Part = 12,
    /// The last line, or what it states, is wrong.
    Trailer = 13,
    /// The paper is too long.
    Length = 14,
}

/// A cause, and the number of the field at fault, 0 where it lies in no one field.
#[derive(Clone, Copy, PartialEq, Eq, Debug)]
pub struct Fault {
    pub cause: Cause,
    // Not an Option: 0 is printed where no one field is at fault.
    pub field: u64,
}

impl Fault {
    /// A line that has not the number of fields that it should.
    pub const MISCOUNTED: Fault = Fault {
        cause: Cause::Writing,
        field: 0,
    };
    /// A record that breaks an ordering rule.
    pub const DISORDERED: Fault = Fault {
        cause: Cause::Order,
        field: 0,
    };
    /// A curve or a grid that is too steep.
    pub const TOO_STEEP: Fault = Fault {
        cause: Cause::Steep,
        field: 0,
    };
}

impl Cause {
    /// The number that the cause is printed under.
    pub fn number(self) -> u8
        ensures { result ≡ number self }
    {
        self as u8
    }
}

impl Display for Fault {
    ghost use Rattle.std.specs.Prelude.{Some};
    ghost use Rattle.records.specs.Cause.{fault_text};

    ghost output = { λ fault. Some (fault_text fault) };

    fn fmt<W: Write>(&self, f: &mut Formatter<W>) -> fmt::Result {
        write!(f, "cause {} in field {}", self.cause.number(), self.field)
    }
}

impl Error for Fault {}
