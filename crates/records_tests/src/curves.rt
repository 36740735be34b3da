use crate::refusals::{Edge, check_edges, refused};
use records::Cause::{Order, Range, Steep, Writing};
use records::{EmbedmentCurve, ShapeCurve};

const EMBEDMENT: [u64; 5] = [2, 1_000, 1_625, 2_000, 1_800];

const EMBEDMENT_EDGES: [Edge; 26] = [
    (1, 0, Some(Range)),
    (1, 1, None),
    (1, 1_999, Some(Steep)),
    (1, 2_000, Some(Order)),
    (1, 20_000, Some(Order)),
    (1, 20_001, Some(Range)),
    (2, 49, Some(Range)),
    (2, 50, Some(Steep)),
    (2, 1_800, None),
    (2, 1_801, Some(Order)),
    (2, 50_000, Some(Order)),
    (2, 50_001, Some(Range)),
    (3, 0, Some(Range)),
    (3, 1, Some(Order)),
    (3, 1_000, Some(Order)),
    (3, 1_001, Some(Steep)),
    (3, 20_000, None),
    (3, 20_001, Some(Range)),
    (4, 49, Some(Range)),
    (4, 50, Some(Order)),
    (4, 1_624, Some(Order)),
    (4, 1_625, None),
    (4, 4_875, None),
    (4, 4_876, Some(Steep)),
    (4, 50_000, Some(Steep)),
    (4, 50_001, Some(Range)),
];

const SHAPE: [u64; 5] = [2, 3_600, 350, 7_200, 280];

const SHAPE_EDGES: [Edge; 26] = [
    (1, 0, Some(Range)),
    (1, 1, None),
    (1, 7_199, Some(Steep)),
    (1, 7_200, Some(Order)),
    (1, 100_000, Some(Order)),
    (1, 100_001, Some(Range)),
    (2, 99, Some(Range)),
    (2, 100, Some(Order)),
    (2, 279, Some(Order)),
    (2, 280, None),
    (2, 840, None),
    (2, 841, Some(Steep)),
    (2, 1_000, Some(Steep)),
    (2, 1_001, Some(Range)),
    (3, 0, Some(Range)),
    (3, 1, Some(Order)),
    (3, 3_600, Some(Order)),
    (3, 3_601, Some(Steep)),
    (3, 100_000, None),
    (3, 100_001, Some(Range)),
    (4, 99, Some(Range)),
    (4, 100, Some(Steep)),
    (4, 350, None),
    (4, 351, Some(Order)),
    (4, 1_000, Some(Order)),
    (4, 1_001, Some(Range)),
];

#[test]
fn embedment_edges(rt: HostRuntime) {
    check_edges(
        &rt,
        EMBEDMENT,
        &EMBEDMENT_EDGES,
        |fields| EmbedmentCurve::new(fields).err(),
    );
}

#[test]
fn shape_edges(rt: HostRuntime) {
    check_edges(
        &rt,
        SHAPE,
        &SHAPE_EDGES,
        |fields| ShapeCurve::new(fields).err(),
    );
}

#[test]
fn counts(rt: HostRuntime) {
    let nine = [
        9, 1, 50, 2, 50, 3, 50, 4, 50, 5, 50, 6, 50, 7, 50, 8, 50, 9, 50,
    ];
    let eight = [8, 1, 50, 2, 50, 3, 50, 4, 50, 5, 50, 6, 50, 7, 50, 8, 50];
    assert_eq!(rt; EmbedmentCurve::new(&[0]).err(), refused(Range, 2));
    assert_eq!(rt; EmbedmentCurve::new(&[1, 20_000, 50_000]).err(), None);
    assert_eq!(rt; EmbedmentCurve::new(&eight).err(), None);
    assert_eq!(rt; EmbedmentCurve::new(&nine).err(), refused(Range, 2));
    assert_eq!(rt; ShapeCurve::new(&[0]).err(), refused(Range, 2));
    assert_eq!(rt; ShapeCurve::new(&[1, 100_000, 1_000]).err(), None);
    assert_eq!(rt; ShapeCurve::new(&nine).err(), refused(Range, 2));
}

#[test]
fn order_of_causes(rt: HostRuntime) {
    assert_eq!(rt; EmbedmentCurve::new(&[]).err(), refused(Writing, 0));
    assert_eq!(rt;
        EmbedmentCurve::new(&[2, 0, 0, 0]).err(),
        refused(Writing, 0)
    );
    assert_eq!(rt;
        EmbedmentCurve::new(&[2, 0, 0, 0, 0, 0]).err(),
        refused(Writing, 0)
    );
    assert_eq!(rt;
        EmbedmentCurve::new(&[9, 1_000, 1_625]).err(),
        refused(Writing, 0)
    );
    assert_eq!(rt;
        EmbedmentCurve::new(&[18_446_744_073_709_551_615, 1_000, 1_625]).err(),
        refused(Writing, 0)
    );
    assert_eq!(rt;
        EmbedmentCurve::new(&[2, 2_000, 1_800, 1_000, 50_001]).err(),
        refused(Range, 6)
    );
    assert_eq!(rt;
        EmbedmentCurve::new(&[2, 2_000, 1_800, 1_000, 50]).err(),
        refused(Order, 0)
    );
    assert_eq!(rt;
        EmbedmentCurve::new(&[2, 1_000, 50, 1_001, 50_000]).err(),
        refused(Steep, 0)
    );
    assert_eq!(rt;
        ShapeCurve::new(&[3, 1_000, 1_000, 1_001, 100, 1_001, 100]).err(),
        refused(Order, 0)
    );
}
