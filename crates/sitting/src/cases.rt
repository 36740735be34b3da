// The case at five places of a book.
ghost use Rattle.std.specs.Prelude.{◌≡◌, IfOk, Some};
ghost use Rattle.book.specs.Register.{standing, empty_refusal};
ghost use Rattle.book.specs.Shelves.{register_of};
ghost use Rattle.quantities.specs.Case.{design_of};
ghost use Rattle.records.specs.Cause.{refused, first};
ghost use Rattle.sitting.specs.Cases.{places_refusal, vacancy, misfit, Stands};

use book::{Book, Kind, Record, check_place};
use calls::CasePlaces;
use quantities::Case;
use records::{Cause, EmbedmentCurve, Fault, Section, ShapeCurve, Site, SupportGrid};

/// Refuses places that are not within their counts.
// The numbers are those of the places' fields in the call, here and in `gather`.
pub(crate) fn check_places(case: CasePlaces) -> Result<(), Fault>
    ensures { refused result ≡ places_refusal case }
{
    check_place(1, Kind::Section.places(), case.section)?;
    check_place(2, Kind::Embedment.places(), case.embedment)?;
    check_place(3, Kind::Shape.places(), case.shape)?;
    check_place(4, Kind::Grid.places(), case.grid)?;
    check_place(5, Kind::Site.places(), case.site)
}

// The record at a place, which stands in this field of the call.
fn record_at<T: Record>(book: &Book, field: u64, place: u64) -> Result<&T, Fault>
    ensures answer { refused result ≡ empty_refusal field (standing (register_of book.now) T.kind place) }
    ensures stands { IfOk result (λ t. standing (register_of book.now) T.kind place ≡ Some (T.line t.now)) }
{
    book.get(place).ok_or(Fault {
        cause: Cause::Empty,
        field,
    })
}

/// The case of the records at these places.
#[tactic(auto, using(crate::proofs::Gathered::refused_of))]
pub(crate) fn gather(book: &Book, case: CasePlaces) -> Result<Case, Fault>
    ensures answer { refused result ≡ first (vacancy (register_of book.now) case) (misfit (register_of book.now) case) }
    ensures stands { IfOk result (λ c. Stands (register_of book.now) case (design_of c)) }
{
    let section = record_at::<Section>(book, 1, case.section)?;
    let embedment = record_at::<EmbedmentCurve>(book, 2, case.embedment)?;
    let shape = record_at::<ShapeCurve>(book, 3, case.shape)?;
    let grid = record_at::<SupportGrid>(book, 4, case.grid)?;
    let site = record_at::<Site>(book, 5, case.site)?;
    Case::new(*section, embedment, shape, grid, *site)
}
