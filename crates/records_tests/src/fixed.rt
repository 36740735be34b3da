use crate::refusals::{Edge, check_edges, refused};
use records::Cause::{
    Claim, Empty, Figure, Length, Order, Part, Place, Range, Steep, Tally, Trailer, Trench, Water,
    Writing,
};
use records::{Fault, Section, Site};
use std::test::Fail;

const SECTION: [u64; 11] = [
    36_000, 38_500, 41_000, 6_500, 5_400, 1_520_000, 175_000, 28_000, 370, 250, 4_000,
];

const SECTION_EDGES: [Edge; 58] = [
    (0, 2_999, Some(Range)),
    (0, 3_000, None),
    (0, 38_499, None),
    (0, 38_500, Some(Order)),
    (0, 120_000, Some(Order)),
    (0, 120_001, Some(Range)),
    (1, 2_999, Some(Range)),
    (1, 3_000, Some(Order)),
    (1, 36_000, Some(Order)),
    (1, 36_001, None),
    (1, 40_999, None),
    (1, 41_000, Some(Order)),
    (1, 120_000, Some(Order)),
    (1, 120_001, Some(Range)),
    (2, 2_999, Some(Range)),
    (2, 3_000, Some(Order)),
    (2, 38_500, Some(Order)),
    (2, 38_501, None),
    (2, 120_000, None),
    (2, 120_001, Some(Range)),
    (3, 99, Some(Range)),
    (3, 100, Some(Order)),
    (3, 5_399, Some(Order)),
    (3, 5_400, None),
    (3, 100_000, None),
    (3, 100_001, Some(Range)),
    (4, 99, Some(Range)),
    (4, 100, None),
    (4, 6_500, None),
    (4, 6_501, Some(Order)),
    (4, 100_000, Some(Order)),
    (4, 100_001, Some(Range)),
    (5, 99, Some(Range)),
    (5, 100, None),
    (5, 100_000_000, None),
    (5, 100_000_001, Some(Range)),
    (6, 999, Some(Range)),
    (6, 1_000, Some(Order)),
    (6, 28_000, None),
    (6, 1_000_000, None),
    (6, 1_000_001, Some(Range)),
    (7, 999, Some(Range)),
    (7, 1_000, None),
    (7, 175_000, None),
    (7, 175_001, Some(Order)),
    (7, 1_000_000, Some(Order)),
    (7, 1_000_001, Some(Range)),
    (8, 0, Some(Range)),
    (8, 1, None),
    (8, 2_000, None),
    (8, 2_001, Some(Range)),
    (9, 0, Some(Range)),
    (9, 1, None),
    (9, 2_000, None),
    (9, 2_001, Some(Range)),
    (10, 0, None),
    (10, 100_000, None),
    (10, 100_001, Some(Range)),
];

const SITE: [u64; 10] = [180_000, 78_000, 96_000, 1_200, 1_360, 130, 150, 1_500, 0, 1];

const SITE_EDGES: [Edge; 42] = [
    (0, 12_000, Some(Range)),
    (0, 12_001, None),
    (0, 1_200_000, None),
    (0, 1_200_001, Some(Range)),
    (1, 0, Some(Range)),
    (1, 1, None),
    (1, 1_200_000, None),
    (1, 1_200_001, Some(Range)),
    (2, 0, None),
    (2, 1_260_000, None),
    (2, 1_260_001, Some(Range)),
    (3, 499, Some(Range)),
    (3, 500, None),
    (3, 2_000, None),
    (3, 2_001, Some(Range)),
    (4, 799, Some(Range)),
    (4, 800, None),
    (4, 2_000, None),
    (4, 2_001, Some(Range)),
    (5, 99, Some(Range)),
    (5, 100, None),
    (5, 130, None),
    (5, 131, Some(Range)),
    (6, 114, Some(Range)),
    (6, 115, None),
    (6, 116, Some(Range)),
    (6, 134, Some(Range)),
    (6, 135, None),
    (6, 136, Some(Range)),
    (6, 149, Some(Range)),
    (6, 150, None),
    (6, 151, Some(Range)),
    (7, 49, Some(Range)),
    (7, 50, None),
    (7, 50_000, None),
    (7, 50_001, Some(Range)),
    (8, 0, None),
    (8, 1, None),
    (8, 2, Some(Range)),
    (9, 0, None),
    (9, 1, None),
    (9, 2, Some(Range)),
];

#[test]
fn section_edges(rt: HostRuntime) {
    check_edges(
        &rt,
        SECTION,
        &SECTION_EDGES,
        |fields| Section::new(fields).err(),
    );
}

#[test]
fn site_edges(rt: HostRuntime) {
    check_edges(&rt, SITE, &SITE_EDGES, |fields| Site::new(fields).err());
}

#[test]
fn order_of_causes(rt: HostRuntime) {
    assert_eq!(rt; Section::new(&[]).err(), refused(Writing, 0));
    assert_eq!(rt;
        Section::new(&[0, 0, 0, 0, 0, 0, 0, 0, 0, 0]).err(),
        refused(Writing, 0)
    );
    assert_eq!(rt;
        Section::new(&[0, 0, 0, 0, 0, 0, 0, 0, 0, 0, 0, 0]).err(),
        refused(Writing, 0)
    );
    let disordered = [
        41_000, 38_500, 36_000, 6_500, 5_400, 1_520_000, 28_000, 175_000, 370, 250, 100_001,
    ];
    assert_eq!(rt; Section::new(&disordered).err(), refused(Range, 12));
    assert_eq!(rt;
        Section::new(&[
            41_000, 2, 3, 6_500, 5_400, 1_520_000, 28_000, 175_000, 370, 250, 0,
        ],)
        .err(),
        refused(Range, 3)
    );
    assert_eq!(rt;
        Site::new(&[180_000, 78_000, 96_000, 1_200, 1_360, 130, 150, 1_500, 0]).err(),
        refused(Writing, 0)
    );
    assert_eq!(rt;
        Site::new(&[180_000, 0, 0, 1_200, 1_360, 130, 0, 1_500, 2, 2]).err(),
        refused(Range, 3)
    );
}

#[test]
fn a_fault_is_printed(rt: HostRuntime) -> Result<(), Fail> {
    let fault = Fault {
        cause: Range,
        field: 12,
    };
    let text = format!(in rt.alloc(); "{fault}")?;
    assert_eq!(rt; text.as_str(), "cause 2 in field 12");
    Ok(())
}

#[test]
fn numbers_of_causes(rt: HostRuntime) {
    let causes = [
        Place, Range, Order, Steep, Empty, Trench, Water, Figure, Claim, Tally, Writing, Part,
        Trailer, Length,
    ];
    assert_eq!(rt;
        causes.map(|cause| cause.number()),
        [1, 2, 3, 4, 5, 6, 7, 8, 9, 10, 11, 12, 13, 14]
    );
}
