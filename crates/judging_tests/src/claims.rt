use judging::{Claimed, Figure};

#[test]
fn figures(rt: HostRuntime) {
    assert_eq!(rt; Figure::numbered(0), None);
    assert_eq!(rt; Figure::numbered(1), Some(Figure::PrismPressure));
    assert_eq!(rt; Figure::numbered(5), Some(Figure::DesignThrust));
    assert_eq!(rt; Figure::numbered(8), Some(Figure::Deflection));
    assert_eq!(rt; Figure::numbered(9), None);
    for number in [1u8, 5, 8] {
        let figure = Figure::numbered(number as u64);
        assert_eq!(rt; figure.map(|figure| figure.number()), Some(number));
    }
}

#[test]
fn claims(rt: HostRuntime) {
    assert!(rt; Claimed::new(0).is_none());
    assert!(rt; Claimed::new(1).is_some());
    assert!(rt; Claimed::new(10_000_000_000_000).is_some());
    assert!(rt; Claimed::new(10_000_000_000_001).is_none());
}
