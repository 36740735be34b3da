// A shelf: the places of one kind of record, from 1 on.
ghost use Rattle.std.specs.Prelude.{◌≡◌, ◌-◌, ◌≤◌, length, Some, None, MatchResult, OnOk, slice_set};
ghost use Rattle.std.specs.Option.{option_map};
ghost use Rattle.book.specs.Register.{in_place, place_refusal, empty_refusal, record_refusal};
ghost use Rattle.book.specs.Shelves.{lines};
ghost use Rattle.records.specs.Cause.{refused, first};

use crate::kind::check_place;
use crate::record::Record;
use records::{Cause, Fault};

/// What stands at a place.
pub(crate) fn held_at<T>(shelf: &[Option<T>], place: u64) -> Option<&T>
    ensures { option_map (λ x. x.now) result ≡ in_place shelf.now place }
{
    let index = place.checked_sub(1)?;
    shelf.get(index as usize)?.as_ref()
}

// Puts something else at a place.
#[tactic(auto, using(crate::proofs::Rows::lines_set, crate::proofs::Rows::stands))]
fn put<T: Record>(shelf: &mut [Option<T>], place: u64, held: Option<T>)
    requires { (1 ≤ place) × (place ≤ length shelf.old) }
    ensures written { lines T.line shelf.new ≡ slice_set (lines T.line shelf.old) (place - 1) (option_map T.line held) }
    ensures here { in_place (lines T.line shelf.new) place ≡ option_map T.line held }
{
    shelf[place as usize - 1] = held;
}

/// Puts the record of these fields at the place, whatever the place held.
pub(crate) fn enter<T: Record>(
    shelf: &mut [Option<T>],
    place: u64,
    fields: &[u64],
) -> Result<(), Fault>
    ensures answer { refused result ≡ first (place_refusal 1 (length shelf.old) place) (record_refusal T.kind fields.now) }
    ensures held { MatchResult result
        (λ _. lines T.line shelf.new ≡ slice_set (lines T.line shelf.old) (place - 1) (Some fields.now))
        (λ _. shelf.new ≡ shelf.old) }
    ensures here { OnOk result (in_place (lines T.line shelf.new) place ≡ Some fields.now) }
{
    check_place(1, shelf.len() as u64, place)?;
    let record = T::of_fields(fields)?;
    put(shelf, place, Some(record));
    Ok(())
}

/// Empties the place.
pub(crate) fn withdraw<T: Record>(shelf: &mut [Option<T>], place: u64) -> Result<(), Fault>
    ensures answer { refused result ≡ first (place_refusal 2 (length shelf.old) place) (empty_refusal 2 (in_place (lines T.line shelf.old) place)) }
    ensures held { MatchResult result
        (λ _. lines T.line shelf.new ≡ slice_set (lines T.line shelf.old) (place - 1) None)
        (λ _. shelf.new ≡ shelf.old) }
    ensures here { OnOk result (in_place (lines T.line shelf.new) place ≡ None) }
{
    check_place(2, shelf.len() as u64, place)?;
    if held_at(shelf, place).is_none() {
        return Err(Fault {
            cause: Cause::Empty,
            field: 2,
        });
    }
    put(shelf, place, None);
    Ok(())
}
