use book::Kind;
use judging::Claim;

/// The places of the five records of a case.
#[derive(Clone, Copy, PartialEq, Eq, Debug)]
pub struct CasePlaces {
    pub section: u64,
    pub embedment: u64,
    pub shape: u64,
    pub grid: u64,
    pub site: u64,
}

/// A figure of a case, by its number.
// A number, and no Figure: one that names no figure is a call too, and the sitting refuses it.
#[derive(Clone, Copy, PartialEq, Eq, Debug)]
pub struct Reading {
    pub case: CasePlaces,
    pub figure: u64,
}

/// What a book or a sitting can be asked. R is what may be read: a `Reading`, or nothing.
#[derive(Drop)]
pub enum Call<R: Drop> {
    /// Puts the record of these fields, which are those of its line after the place, at a place of its kind.
    Enter {
        kind: Kind,
        place: u64,
        fields: Vec<u64>,
    },
    /// Empties a place of the kind of this number.
    // A number, and no Kind: one that names no kind is a call too, and the book refuses it.
    Withdraw {
        kind: u64,
        place: u64,
    },
    /// Opens a sitting.
    Open,
    /// Judges a case.
    Judge {
        case: CasePlaces,
    },
    /// Reads a figure.
    Read {
        reading: R,
    },
    /// Marks claims on a case.
    Mark {
        case: CasePlaces,
        claims: Vec<Claim>,
    },
    /// Reads the tallies.
    Tallies,
    /// Closes the sitting.
    Close,
}
