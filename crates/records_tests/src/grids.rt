use crate::refusals::{Edge, check_edges, refused};
use records::Cause::{Order, Range, Steep, Writing};
use records::SupportGrid;

const GRID: [u64; 10] = [2, 2, 175, 200, 800, 1_000, 900, 930, 1_000, 1_000];

const EDGES: [Edge; 52] = [
    (2, 99, Some(Range)),
    (2, 100, None),
    (2, 199, None),
    (2, 200, Some(Order)),
    (2, 1_000, Some(Order)),
    (2, 1_001, Some(Range)),
    (3, 99, Some(Range)),
    (3, 100, Some(Order)),
    (3, 175, Some(Order)),
    (3, 176, None),
    (3, 1_000, None),
    (3, 1_001, Some(Range)),
    (4, 4, Some(Range)),
    (4, 5, None),
    (4, 999, Some(Steep)),
    (4, 1_000, Some(Order)),
    (4, 5_000, Some(Order)),
    (4, 5_001, Some(Range)),
    (5, 4, Some(Range)),
    (5, 5, Some(Order)),
    (5, 800, Some(Order)),
    (5, 801, Some(Steep)),
    (5, 5_000, None),
    (5, 5_001, Some(Range)),
    (6, 0, Some(Range)),
    (6, 1, Some(Steep)),
    (6, 1_000, None),
    (6, 1_001, Some(Order)),
    (6, 2_000, Some(Order)),
    (6, 2_001, Some(Range)),
    (7, 0, Some(Range)),
    (7, 1, Some(Steep)),
    (7, 1_000, None),
    (7, 1_001, Some(Order)),
    (7, 2_000, Some(Order)),
    (7, 2_001, Some(Range)),
    (8, 0, Some(Range)),
    (8, 1, Some(Order)),
    (8, 899, Some(Order)),
    (8, 900, None),
    (8, 1_620, None),
    (8, 1_621, Some(Steep)),
    (8, 2_000, Some(Steep)),
    (8, 2_001, Some(Range)),
    (9, 0, Some(Range)),
    (9, 1, Some(Order)),
    (9, 929, Some(Order)),
    (9, 930, None),
    (9, 1_674, None),
    (9, 1_675, Some(Steep)),
    (9, 2_000, Some(Steep)),
    (9, 2_001, Some(Range)),
];

#[test]
fn edges(rt: HostRuntime) {
    check_edges(&rt, GRID, &EDGES, |fields| SupportGrid::new(fields).err());
}

#[test]
fn counts(rt: HostRuntime) {
    assert_eq!(rt;
        SupportGrid::new(&[0, 2, 800, 1_000]).err(),
        refused(Range, 2)
    );
    assert_eq!(rt;
        SupportGrid::new(&[2, 0, 175, 200]).err(),
        refused(Range, 3)
    );
    assert_eq!(rt; SupportGrid::new(&[1, 1, 1_000, 5_000, 2_000]).err(), None);
    let wide = [
        7, 1, 100, 101, 102, 103, 104, 105, 106, 5, 1, 1, 1, 1, 1, 1, 1,
    ];
    assert_eq!(rt; SupportGrid::new(&wide).err(), refused(Range, 2));
    let deep = [1, 7, 100, 5, 6, 7, 8, 9, 10, 11, 1, 1, 1, 1, 1, 1, 1];
    assert_eq!(rt; SupportGrid::new(&deep).err(), refused(Range, 3));
    let most = [
        6, 6, 100, 101, 102, 103, 104, 105, 5, 6, 7, 8, 9, 10, 1, 1, 1, 1, 1, 1, 1, 1, 1, 1, 1, 1,
        1, 1, 1, 1, 1, 1, 1, 1, 1, 1, 1, 1, 1, 1, 1, 1, 1, 1, 1, 1, 1, 1, 1, 1,
    ];
    assert_eq!(rt; SupportGrid::new(&most).err(), None);
}

#[test]
fn order_of_causes(rt: HostRuntime) {
    assert_eq!(rt; SupportGrid::new(&[]).err(), refused(Writing, 0));
    assert_eq!(rt; SupportGrid::new(&[0]).err(), refused(Writing, 0));
    assert_eq!(rt;
        SupportGrid::new(&[2, 2, 0, 0, 0]).err(),
        refused(Writing, 0)
    );
    assert_eq!(rt;
        SupportGrid::new(&[7, 7, 0, 0, 0]).err(),
        refused(Writing, 0)
    );
    assert_eq!(rt;
        SupportGrid::new(&[18_446_744_073_709_551_615, 18_446_744_073_709_551_615, 0]).err(),
        refused(Writing, 0)
    );
    assert_eq!(rt; SupportGrid::new(&[0, 0]).err(), refused(Range, 2));
    assert_eq!(rt;
        SupportGrid::new(&[2, 2, 200, 175, 800, 1_000, 900, 930, 1_000, 2_001]).err(),
        refused(Range, 11)
    );
    assert_eq!(rt;
        SupportGrid::new(&[2, 2, 200, 175, 800, 801, 1, 1, 2_000, 2_000]).err(),
        refused(Order, 0)
    );
    assert_eq!(rt;
        SupportGrid::new(&[2, 2, 175, 200, 800, 801, 1, 1, 2_000, 2_000]).err(),
        refused(Steep, 0)
    );
}
