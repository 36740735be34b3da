ghost use Rattle.std.specs.Prelude.{◌≡◌, ℕ, List};
ghost use Rattle.book.specs.Register.{record_refusal, row};
ghost use Rattle.book.specs.Shelves.{lines, register_of};
ghost use Rattle.book.specs.Told.{Told};
ghost use Rattle.book.specs.declared.kind.Kind.{Kind};
ghost use Rattle.book.specs.declared.kind.Kind.TheVariants.{Section as SectionKind, Embedment, Shape, Grid, Site as SiteKind};
ghost use Rattle.records.specs.Cause.{answered, unless};
ghost use Rattle.records.specs.Lines.{section_line, embedment_line, shape_line, grid_line, site_line};

use crate::book::Book;
use records::{EmbedmentCurve, Fault, Section, ShapeCurve, Site, SupportGrid};

/// What a line can state.
pub trait Record: Copy {
    ghost kind: { Kind };
    /// The record's fields after the place.
    ghost line: { Self → List ℕ };

    /// The record of these fields, or why there is none.
    fn of_fields(fields: &[u64]) -> Result<Self, Fault>
        ensures { answered line result ≡ unless (record_refusal kind fields.now) fields.now };

    /// What stands at the places of this kind.
    fn shelf(book: &Book) -> &[Option<Self>]
        ensures { lines line result.now ≡ row kind (register_of book.now) };
}

// Each kind of record names its own maker and its own shelf, so each has its impl.
impl Record for Section {
    ghost kind = { SectionKind };

    ghost line = { section_line };

    fn of_fields(fields: &[u64]) -> Result<Self, Fault> {
        Section::new(fields)
    }

    fn shelf(book: &Book) -> &[Option<Self>] {
        &book.sections
    }
}

impl Record for EmbedmentCurve {
    ghost kind = { Embedment };

    ghost line = { embedment_line };

    fn of_fields(fields: &[u64]) -> Result<Self, Fault> {
        EmbedmentCurve::new(fields)
    }

    fn shelf(book: &Book) -> &[Option<Self>] {
        &book.embedments
    }
}

impl Record for ShapeCurve {
    ghost kind = { Shape };

    ghost line = { shape_line };

    fn of_fields(fields: &[u64]) -> Result<Self, Fault> {
        ShapeCurve::new(fields)
    }

    fn shelf(book: &Book) -> &[Option<Self>] {
        &book.shapes
    }
}

impl Record for SupportGrid {
    ghost kind = { Grid };

    ghost line = { grid_line };

    fn of_fields(fields: &[u64]) -> Result<Self, Fault> {
        SupportGrid::new(fields)
    }

    fn shelf(book: &Book) -> &[Option<Self>] {
        &book.grids
    }
}

impl Record for Site {
    ghost kind = { SiteKind };

    ghost line = { site_line };

    fn of_fields(fields: &[u64]) -> Result<Self, Fault> {
        Site::new(fields)
    }

    fn shelf(book: &Book) -> &[Option<Self>] {
        &book.sites
    }
}

/// Fields tell the record: two of one kind that have the same line are the same, as far as anything reads them.
pub fn lines_tell_records()
    ensures { Told }
{}
