ghost use Rattle.std.specs.Prelude.{◌≡◌, Some, None, MatchResult, OnOk};
ghost use Rattle.std.specs.Option.{option_map};
ghost use Rattle.book.specs.Register.{fresh, entered, after_withdrawal, numbered, entry_refusal, withdrawal_refusal, standing};
ghost use Rattle.book.specs.Law.{Changed, Emptied};
ghost use Rattle.book.specs.Shelves.{register_of};
ghost use Rattle.records.specs.Cause.{refused};

use crate::kind::Kind;
use crate::record::Record;
use crate::shelf;
use records::{EmbedmentCurve, Fault, Section, ShapeCurve, Site, SupportGrid};

/// The records that stand at the places.
// Arrays, and no maps: an entry can then not run out of memory.
pub struct Book {
    pub(crate) sections: [Option<Section>; 24],
    pub(crate) embedments: [Option<EmbedmentCurve>; 24],
    pub(crate) shapes: [Option<ShapeCurve>; 24],
    pub(crate) grids: [Option<SupportGrid>; 4],
    pub(crate) sites: [Option<Site>; 96],
}

impl Book {
    /// A book with nothing at any place.
    pub fn new() -> Book
        ensures { register_of result ≡ fresh }
    {
        Book {
            sections: [None; 24],
            embedments: [None; 24],
            shapes: [None; 24],
            grids: [None; 4],
            sites: [None; 96],
        }
    }

    /// Enters the record of these fields at a place of its kind, whatever the place held.
    #[tactic(auto, using(crate::proofs::Changes::elsewhere, crate::proofs::Rows::from_one))]
    pub fn enter(&mut self, kind: Kind, place: u64, fields: &[u64]) -> Result<(), Fault>
        ensures answer { refused result ≡ entry_refusal kind place fields.now }
        ensures held { MatchResult result
            (λ _. register_of self.new ≡ entered kind place fields.now (register_of self.old))
            (λ _. self.new ≡ self.old) }
        ensures law { OnOk result (Changed (register_of self.old) (register_of self.new) kind place (Some fields.now)) }
    {
        // A kind is a value and a record a type, and only a match leads from one to the other.
        match kind {
            Kind::Section => shelf::enter(&mut self.sections, place, fields),
            Kind::Embedment => shelf::enter(&mut self.embedments, place, fields),
            Kind::Shape => shelf::enter(&mut self.shapes, place, fields),
            Kind::Grid => shelf::enter(&mut self.grids, place, fields),
            Kind::Site => shelf::enter(&mut self.sites, place, fields),
        }
    }

    /// Empties a place of the kind of this number; one that is no kind's is refused.
    pub fn withdraw(&mut self, kind: u64, place: u64) -> Result<(), Fault>
        ensures answer { refused result ≡ withdrawal_refusal (numbered kind) place (register_of self.old) }
        ensures held { MatchResult result
            (λ _. register_of self.new ≡ after_withdrawal (numbered kind) place (register_of self.old))
            (λ _. self.new ≡ self.old) }
        ensures law { OnOk result (Emptied (numbered kind) place (register_of self.old) (register_of self.new)) }
    {
        let kind = Kind::try_from(kind).map_err(|cause| Fault { cause, field: 1 })?;
        // As in `enter`.
        match kind {
            Kind::Section => shelf::withdraw(&mut self.sections, place),
            Kind::Embedment => shelf::withdraw(&mut self.embedments, place),
            Kind::Shape => shelf::withdraw(&mut self.shapes, place),
            Kind::Grid => shelf::withdraw(&mut self.grids, place),
            Kind::Site => shelf::withdraw(&mut self.sites, place),
        }
    }

    /// The record at a place of its kind.
    pub fn get<T: Record>(&self, place: u64) -> Option<&T>
        ensures { option_map T.line (option_map (λ x. x.now) result) ≡ standing (register_of self.now) T.kind place }
    {
        shelf::held_at(T::shelf(self), place)
    }

    /// Lets the book go, with its records.
    // A book derives no Drop, by a rule of the project: so no program loses one by accident.
    pub fn discard(self) {
        let Book {
            sections: _,
            embedments: _,
            shapes: _,
            grids: _,
            sites: _,
        } = self;
    }
}
