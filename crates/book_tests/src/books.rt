use book::{Book, Kind};
use records::Cause::{Empty, Place, Writing};
use records::{Cause, EmbedmentCurve, Fault, Section, ShapeCurve, Site, SupportGrid};
use std::process::Abort;

const SECTION: [u64; 11] = [
    36_000, 38_500, 41_000, 6_500, 5_400, 1_520_000, 175_000, 28_000, 370, 250, 4_000,
];

const EMBEDMENT: [u64; 5] = [2, 1_000, 1_625, 2_000, 1_800];

const SHAPE: [u64; 5] = [2, 3_600, 350, 7_200, 280];

const GRID: [u64; 10] = [2, 2, 175, 200, 800, 1_000, 900, 930, 1_000, 1_000];

const SHALLOW: [u64; 10] = [180_000, 78_000, 96_000, 1_200, 1_360, 130, 150, 1_500, 0, 1];

const DEEP: [u64; 10] = [480_000, 78_000, 96_000, 1_200, 1_360, 130, 150, 1_500, 0, 0];

// The refusal of a cause in a field.
fn refused(cause: Cause, field: u64) -> Result<(), Fault> {
    Err(Fault { cause, field })
}

fn fill_at(book: &Book, place: u64) -> Option<u64> {
    Some(book.get::<Site>(place)?.fill)
}

// A book must be let go, so each test runs on one that this function makes and lets go.
fn on_new_book<F: FnOnce(&mut Book)>(check: F)
    requires { F.IsAlwaysCallable check }
{
    let mut book = Book::new();
    check(&mut book);
    book.discard();
}

fn replaces(rt: &impl Abort, book: &mut Book) {
    assert_eq!(rt; book.enter(Kind::Site, 96, &SHALLOW), Ok(()));
    assert_eq!(rt; fill_at(book, 96), Some(180_000));
    assert_eq!(rt; book.enter(Kind::Site, 96, &DEEP), Ok(()));
    assert_eq!(rt; fill_at(book, 96), Some(480_000));
    assert_eq!(rt; fill_at(book, 95), None);
}

#[test]
fn an_entry_replaces(rt: HostRuntime) {
    on_new_book(|book| replaces(&rt, book));
}

fn empties(rt: &impl Abort, book: &mut Book) {
    assert_eq!(rt; book.enter(Kind::Site, 1, &SHALLOW), Ok(()));
    assert_eq!(rt; book.enter(Kind::Site, 2, &DEEP), Ok(()));
    assert_eq!(rt; book.withdraw(5, 1), Ok(()));
    assert_eq!(rt; fill_at(book, 1), None);
    assert_eq!(rt; fill_at(book, 2), Some(480_000));
    assert_eq!(rt; book.withdraw(5, 1), refused(Empty, 2));
}

#[test]
fn a_withdrawal_empties(rt: HostRuntime) {
    on_new_book(|book| empties(&rt, book));
}

fn refuses(rt: &impl Abort, book: &mut Book) {
    assert_eq!(rt; book.enter(Kind::Site, 1, &SHALLOW), Ok(()));
    assert_eq!(rt; book.enter(Kind::Site, 0, &DEEP), refused(Place, 1));
    assert_eq!(rt; book.enter(Kind::Site, 97, &DEEP), refused(Place, 1));
    assert_eq!(rt; book.enter(Kind::Site, 97, &SECTION), refused(Place, 1));
    assert_eq!(rt; book.enter(Kind::Site, 1, &SECTION), refused(Writing, 0));
    assert_eq!(rt; book.enter(Kind::Grid, 5, &GRID), refused(Place, 1));
    assert_eq!(rt; book.withdraw(0, 1), refused(Place, 1));
    assert_eq!(rt; book.withdraw(6, 97), refused(Place, 1));
    assert_eq!(rt; book.withdraw(5, 97), refused(Place, 2));
    assert_eq!(rt; book.withdraw(1, 1), refused(Empty, 2));
    assert_eq!(rt; fill_at(book, 1), Some(180_000));
}

#[test]
fn a_refusal_changes_nothing(rt: HostRuntime) {
    on_new_book(|book| refuses(&rt, book));
}

// Which kinds have a record at the place.
fn standing(book: &Book, place: u64) -> [bool; 5] {
    [
        book.get::<Section>(place).is_some(),
        book.get::<EmbedmentCurve>(place).is_some(),
        book.get::<ShapeCurve>(place).is_some(),
        book.get::<SupportGrid>(place).is_some(),
        book.get::<Site>(place).is_some(),
    ]
}

fn holds_all(rt: &impl Abort, book: &mut Book) {
    assert_eq!(rt; standing(book, 4), [false, false, false, false, false]);
    assert_eq!(rt; book.enter(Kind::Section, 4, &SECTION), Ok(()));
    assert_eq!(rt; book.enter(Kind::Embedment, 4, &EMBEDMENT), Ok(()));
    assert_eq!(rt; book.enter(Kind::Shape, 4, &SHAPE), Ok(()));
    assert_eq!(rt; book.enter(Kind::Grid, 4, &GRID), Ok(()));
    assert_eq!(rt; book.enter(Kind::Site, 4, &DEEP), Ok(()));
    assert_eq!(rt; standing(book, 4), [true, true, true, true, true]);
    assert_eq!(rt; book.withdraw(3, 4), Ok(()));
    assert_eq!(rt; standing(book, 4), [true, true, false, true, true]);
}

#[test]
fn kinds_stand_side_by_side(rt: HostRuntime) {
    on_new_book(|book| holds_all(&rt, book));
}
