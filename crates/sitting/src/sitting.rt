ghost use Rattle.std.specs.Prelude.{◌≡◌, ◌+◌, ◌≤◌, length, IfOk, MatchResult, OnOk};
ghost use Rattle.records.specs.Cause.{refused};
ghost use Rattle.sitting.specs.Cases.{no_case};
ghost use Rattle.sitting.specs.Claims.{counted, no_tallies, room_refusal, total};

use crate::cases::{check_places, gather};
use crate::claims::{asked_figure, check_claims, check_count, count_of};
use book::Book;
use calls::{CasePlaces, Reading, Tallies};
use enclosure::{Arithmetic, ReadOut};
use judging::{Claim, Mark, Sheet, figure, judge, mark_all};
use records::{Cause, Fault};

/// An open book: its records stand, and claims are marked against them.
pub struct Sitting {
    book: Book,
    tallies: Tallies,
    ghost room: { tallies.right + tallies.wrong + tallies.unmarked ≤ 60000 },
}

impl Sitting {
    ghost use Rattle.sitting.specs.Sittings.{held, marking_refusal, reading_refusal, SheetOf, FigureOf, ClaimsOf};

    /// Opens a book, with every tally at 0.
    pub fn open(book: Book) -> Sitting
        ensures book { result.book ≡ book }
        ensures tallies { result.tallies ≡ no_tallies }
    {
        Sitting {
            book,
            tallies: Tallies::default(),
        }
    }

    /// Closes the book again.
    pub fn close(self) -> Book
        ensures { result ≡ self.book }
    {
        let Sitting { book, tallies: _ } = self;
        book
    }

    /// How many claims were marked right, wrong, and left unmarked.
    pub fn tallies(&self) -> Tallies
        ensures { result ≡ self.now.tallies }
    {
        self.tallies
    }

    /// The sheet of the case at these places.
    pub fn judge<A: Arithmetic>(&self, case: CasePlaces) -> Result<Sheet, Fault>
        ensures answer { refused result ≡ no_case (held self.now) case }
        ensures sheet { IfOk result (λ s. SheetOf A.model (held self.now) case s) }
    {
        check_places(case)?;
        let case = gather(&self.book, case)?;
        Ok(judge::<A>(&case))
    }

    /// The whole numbers below and above a figure, in millionths.
    pub fn read<A: ReadOut>(&self, reading: Reading) -> Result<(u64, u64), Fault>
        ensures answer { refused result ≡ reading_refusal (held self.now) reading }
        ensures figure { IfOk result (λ p. FigureOf A.Arithmetic.model (held self.now) reading p.0 p.1) }
    {
        check_places(reading.case)?;
        let case = gather(&self.book, reading.case)?;
        let asked = asked_figure(6, reading.figure)?;
        Ok(figure::<A>(&case, asked))
    }

    // A sitting marks 60,000 claims at most.
    fn check_room(&self, count: usize) -> Result<(), Fault>
        requires { count ≤ 8 }
        ensures { refused result ≡ room_refusal self.now.tallies count }
    {
        let Tallies {
            right,
            wrong,
            unmarked,
        } = self.tallies;
        if right + wrong + unmarked + count as u64 > 60_000 {
            return Err(Fault {
                cause: Cause::Tally,
                field: 0,
            });
        }
        Ok(())
    }

    // Counts the marks beside these claims.
    #[tactic(auto, using(crate::proofs::Counting::at_most_all))]
    fn count(&mut self, claims: &[Claim])
        requires { total self.old.tallies + length claims.now ≤ 60000 }
        ensures book { self.new.book ≡ self.old.book }
        ensures tallies { self.new.tallies ≡ counted self.old.tallies claims.now }
    {
        self.tallies = Tallies {
            right: self.tallies.right + count_of(Mark::Right, claims) as u64,
            wrong: self.tallies.wrong + count_of(Mark::Wrong, claims) as u64,
            unmarked: self.tallies.unmarked + count_of(Mark::Unmarked, claims) as u64,
        };
    }

    /// Writes beside each claim the mark that it earns, and counts the marks; a refused marking alters nothing.
    pub fn mark<A: Arithmetic>(
        &mut self,
        case: CasePlaces,
        claims: &mut [Claim],
    ) -> Result<(), Fault>
        ensures answer { refused result ≡ marking_refusal (held self.old) self.old.tallies case claims.old }
        ensures marks { OnOk result (ClaimsOf A.model (held self.old) case claims.old claims.new) }
        ensures after { MatchResult result
            (λ _. (self.new.book ≡ self.old.book) × (self.new.tallies ≡ counted self.old.tallies claims.new))
            (λ _. (self.new ≡ self.old) × (claims.new ≡ claims.old)) }
    {
        check_places(case)?;
        check_count(claims.len())?;
        let case = gather(&self.book, case)?;
        check_claims(claims)?;
        self.check_room(claims.len())?;
        mark_all::<A>(&case, claims);
        self.count(claims);
        Ok(())
    }
}
