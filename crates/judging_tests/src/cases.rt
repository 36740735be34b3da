use crate::sample::{SECTION, on_case};
use records::{Cause, Fault};

/// Whether the records of a case with this fill, trench and water fit together.
fn fits(fill: u64, trench: u64, water: u64) -> Result<(), Fault> {
    let site = [fill, trench, water, 1_200, 1_360, 130, 150, 1_500, 0, 1];
    on_case(&SECTION, &site, |_| ())
}

/// The refusal of a cause that lies in no one field.
fn refused(cause: Cause) -> Result<(), Fault> {
    Err(Fault { cause, field: 0 })
}

#[test]
fn trenches(rt: HostRuntime) {
    assert_eq!(rt; fits(180_000, 78_000, 96_000), Ok(()));
    assert_eq!(rt; fits(180_000, 41_000, 96_000), refused(Cause::Trench));
    assert_eq!(rt; fits(180_000, 41_001, 96_000), Ok(()));
}

#[test]
fn waters(rt: HostRuntime) {
    assert_eq!(rt; fits(180_000, 78_000, 200_500), Ok(()));
    assert_eq!(rt; fits(180_000, 78_000, 200_501), refused(Cause::Water));
    assert_eq!(rt; fits(180_000, 41_000, 200_501), refused(Cause::Trench));
}
