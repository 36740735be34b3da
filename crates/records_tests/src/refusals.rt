use records::{Cause, Fault};
use std::process::Abort;

/// A place in the line, counted from 0 after the place number, a value for it, and the cause that it meets, if any.
pub type Edge = (usize, u64, Option<Cause>);

/// The refusal of a cause in a field.
pub fn refused(cause: Cause, field: u64) -> Option<Fault> {
    Some(Fault { cause, field })
}

/// Each edge of the line is met: a field out of its range is named, and no other cause names one.
pub fn check_edges<const N: usize, F: Fn(&[u64]) -> Option<Fault>>(
    rt: &impl Abort,
    line: [u64; N],
    edges: &[Edge],
    refusal: F,
)
    requires { F.IsAlwaysCallable refusal }
{
    for (place, value, cause) in edges {
        let mut fields = line;
        if let Some(field) = fields.get_mut(*place) {
            *field = *value;
        }
        let field = if *cause == Some(Cause::Range) {
            (*place as u64).saturating_add(2)
        } else {
            0
        };
        assert_eq!(rt; refusal(&fields), cause.map(|cause| Fault { cause, field }));
    }
}
