ghost use Rattle.std.specs.Prelude.{◌+◌, ◌*◌, ◌<◌, ◌≤◌};

use records::{Cause, EmbedmentCurve, Fault, Section, ShapeCurve, Site, SupportGrid};

/// Five records that fit together: the trench is wider than the pipe, and the water not above the ground.
#[derive(Clone, Copy)]
pub struct Case<'a> {
    pub section: Section,
    pub embedment: &'a EmbedmentCurve,
    pub shape: &'a ShapeCurve,
    pub grid: &'a SupportGrid,
    pub site: Site,
    ghost wide: { section.outside < site.trench },
    ghost drained: { 2 * site.water ≤ 2 * site.fill + section.outside },
}

impl<'a> Case<'a> {
    ghost use Rattle.std.specs.Prelude.{◌≡◌};
    ghost use Rattle.quantities.specs.Case.{design_of, case_refusal, records_of};
    ghost use Rattle.records.specs.Cause.{answered, unless};

    /// The case of these records, or why they do not fit together.
    pub fn new(
        section: Section,
        embedment: &'a EmbedmentCurve,
        shape: &'a ShapeCurve,
        grid: &'a SupportGrid,
        site: Site,
    ) -> Result<Self, Fault>
        ensures { answered design_of result ≡ unless (case_refusal section site) (records_of section embedment.now shape.now grid.now site) }
    {
        if site.trench <= section.outside {
            return Err(Fault {
                cause: Cause::Trench,
                field: 0,
            });
        }
        if 2 * site.water > 2 * site.fill + section.outside {
            return Err(Fault {
                cause: Cause::Water,
                field: 0,
            });
        }
        Ok(Case {
            section,
            embedment,
            shape,
            grid,
            site,
        })
    }
}
