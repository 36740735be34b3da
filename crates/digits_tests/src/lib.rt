//! Examples of both arithmetics at their edges. The expected digits are computed by hand: an end is `digits` times the
//! base to `exponent` units, a unit 2^-180 or 10^-52.
#![tactic(auto)]

#[cfg(test)]
mod tests {
    use digits::{Binary, Decimal, Enclosure};
    use enclosure::{Arithmetic, Comparison, ReadOut};
    use rounding::{End, Radix};

    const BILLION_BILLION: u64 = 1_000_000_000_000_000_000;

    fn digits<R: Radix>(end: End<R>) -> (u32, u32) {
        (end.digits, end.exponent)
    }

    fn ends<R: Radix>(e: Enclosure<R>) -> ((u32, u32), Option<(u32, u32)>) {
        (digits(e.lower), e.upper.map(digits))
    }

    // 10^36 and 10^-36
    fn huge() -> Decimal {
        Decimal::whole(BILLION_BILLION).mul(Decimal::whole(BILLION_BILLION))
    }

    fn tiny() -> Decimal {
        Decimal::whole(1).div(huge())
    }

    #[test]
    fn zero_is_one_value(rt: HostRuntime) {
        let zero = ((0, 0), Some((0, 0)));
        assert_eq!(rt; ends(Binary::whole(0)), zero);
        assert_eq!(rt; ends(Decimal::whole(0)), zero);
        assert_eq!(rt; ends(Binary::whole(0).mul(Binary::whole(7))), zero);
        assert_eq!(rt; ends(Decimal::whole(0).add(Decimal::whole(0))), zero);
        assert_eq!(rt; ends(Decimal::whole(3).excess(Decimal::whole(5))), zero);
    }

    #[test]
    fn whole_numbers_are_full_or_rounded(rt: HostRuntime) {
        assert_eq!(rt;
            ends(Binary::whole(1)),
            ((1 << 30, 150), Some((1 << 30, 150)))
        );
        assert_eq!(rt;
            ends(Decimal::whole(1)),
            ((100_000_000, 44), Some((100_000_000, 44)))
        );
        // the largest significand, and one more: a carry into a new digit
        assert_eq!(rt;
            ends(Decimal::whole(999_999_999)),
            ((999_999_999, 52), Some((999_999_999, 52)))
        );
        let carried = Decimal::whole(999_999_999).add(Decimal::whole(1));
        assert_eq!(rt; ends(carried), ((100_000_000, 53), Some((100_000_000, 53))));
        assert_eq!(rt;
            ends(Decimal::whole(9_999_999_995)),
            ((999_999_999, 53), Some((100_000_000, 54)))
        );
        // 2^32 - 1 is 2^31 - 1 and a half, times 2
        assert_eq!(rt;
            ends(Binary::whole(4_294_967_295)),
            ((2_147_483_647, 181), Some((1 << 30, 182)))
        );
        assert_eq!(rt;
            ends(Binary::whole(4_611_686_018_427_387_905)),
            ((0, 0), None)
        );
    }

    #[test]
    fn a_third_is_between_its_neighbours(rt: HostRuntime) {
        let third = Binary::whole(1).div(Binary::whole(3));
        assert_eq!(rt;
            ends(third),
            ((1_431_655_765, 148), Some((1_431_655_766, 148)))
        );
        let third = Decimal::whole(1).div(Decimal::whole(3));
        assert_eq!(rt; ends(third), ((333_333_333, 43), Some((333_333_334, 43))));
        let millionths = third.mul(Decimal::whole(1_000_000));
        assert_eq!(rt; millionths.floor(), Some(333_333));
        assert_eq!(rt; millionths.ceiling(), Some(333_334));
    }

    #[test]
    fn far_apart_operands_move_the_upper_end_alone(rt: HostRuntime) {
        assert_eq!(rt; ends(huge()), ((100_000_000, 80), Some((100_000_000, 80))));
        assert_eq!(rt; ends(tiny()), ((100_000_000, 8), Some((100_000_000, 8))));
        assert_eq!(rt;
            ends(huge().add(tiny())),
            ((100_000_000, 80), Some((100_000_001, 80)))
        );
        assert_eq!(rt;
            ends(huge().excess(tiny())),
            ((999_999_999, 79), Some((100_000_000, 80)))
        );
    }

    #[test]
    fn out_of_range_is_zero_to_no_bound(rt: HostRuntime) {
        let past = huge().mul(huge());
        assert_eq!(rt; ends(past), ((0, 0), None));
        assert_eq!(rt; past.ceiling(), None);
        // below the least end above 0: nothing, up to that end
        let slight = tiny().mul(tiny());
        assert_eq!(rt; ends(slight), ((0, 0), Some((100_000_000, 0))));
        // a divisor that is 0, and one that reaches it
        assert_eq!(rt; ends(huge().div(Decimal::whole(0))), ((0, 0), None));
        assert_eq!(rt;
            ends(Decimal::whole(1).div(slight)),
            ((100_000_000, 88), None)
        );
        assert_eq!(rt;
            ends(Binary::whole(1).div(Binary::whole(0))),
            ((0, 0), None)
        );
    }

    #[test]
    fn comparison_follows_the_ends(rt: HostRuntime) {
        let third = Decimal::whole(1).div(Decimal::whole(3));
        assert_eq!(rt; third.at_most(third), Comparison::Unknown);
        assert_eq!(rt; third.at_most(Decimal::whole(1)), Comparison::Yes);
        assert_eq!(rt; Decimal::whole(1).at_most(third), Comparison::No);
        assert_eq!(rt; Binary::whole(2).at_most(Binary::whole(2)), Comparison::Yes);
        assert_eq!(rt;
            ends(Binary::whole(2).smaller(Binary::whole(5))),
            ends(Binary::whole(2))
        );
        assert_eq!(rt; ends(third.larger(Decimal::whole(0))), ends(third));
        assert_eq!(rt;
            Binary::whole(BILLION_BILLION).floor(),
            Some(999_999_999_876_005_888)
        );
    }
}
