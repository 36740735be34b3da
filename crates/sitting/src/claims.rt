// Claims: which can be marked, and how many have each mark.
ghost use Rattle.std.specs.Prelude.{◌≡◌, ◌≤◌, length, Some, IfOk, OnOk};
ghost use Rattle.equations.specs.Figures.{figure_numbered};
ghost use Rattle.records.specs.Cause.{refused};
ghost use Rattle.sitting.specs.Claims.{count_refusal, figure_refusal, claim_refusal, claims_refusal, tells, counts};

use judging::{Claim, Claimed, Figure, Mark};
use records::{Cause, Fault};

/// A marking takes 1 to 8 claims.
pub(crate) fn check_count(count: usize) -> Result<(), Fault>
    ensures answer { refused result ≡ count_refusal count }
    ensures few { OnOk result (count ≤ 8) }
{
    if (1..=8).contains(&count) {
        Ok(())
    } else {
        Err(Fault {
            cause: Cause::Range,
            field: 0,
        })
    }
}

/// The figure of the number in this field.
pub(crate) fn asked_figure(field: u64, number: u64) -> Result<Figure, Fault>
    ensures answer { refused result ≡ figure_refusal field number }
    ensures number { IfOk result (λ figure. figure_numbered number ≡ Some figure) }
{
    Figure::try_from(number).map_err(|cause| Fault { cause, field })
}

// The figure of a claim is in this field, its value in the next.
fn check_claim(field: u64, claim: Claim) -> Result<(), Fault>
    requires { field ≤ 20 }
    ensures { refused result ≡ claim_refusal field claim }
{
    asked_figure(field, claim.figure)?;
    Claimed::new(claim.value).ok_or(Fault {
        cause: Cause::Claim,
        field: field + 1,
    })?;
    Ok(())
}

/// Refuses the first claim on no figure, or out of range.
// By the index, and not `(6..).step_by(2).zip(claims)`: what a `step_by` has given asks for a longer proof than the loop's.
#[tactic(auto, using(crate::proofs::Counting::claims_from))]
pub(crate) fn check_claims(claims: &[Claim]) -> Result<(), Fault>
    requires { length claims.now ≤ 8 }
    ensures { refused result ≡ claims_refusal 6 claims.now }
{
    for (i, claim) in claims.iter().enumerate() {
        check_claim(6 + 2 * i as u64, *claim)?;
    }
    Ok(())
}

// Whether this mark stands beside the claim.
fn bears(claim: &Claim, mark: Mark) -> bool
    ensures { result ≡ tells mark claim.now.mark }
{
    claim.mark == Some(mark)
}

/// How many claims have this mark beside them.
pub(crate) fn count_of(mark: Mark, claims: &[Claim]) -> usize
    ensures { result ≡ counts mark claims.now }
{
    claims.iter().filter(|claim| bears(claim, mark)).count()
}
