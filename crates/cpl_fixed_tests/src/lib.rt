//! Tests of the shared words, of division and of shares. Each expected value is worked out by hand.
#![tactic(auto)]

#[cfg(test)]
mod numbers;

#[cfg(test)]
mod tests {
    use cpl_fixed::{Component, Divisor, FaceDivisor, LayoutError, Quantity, flow_with, trunc_div};
    use std::test::Fail;

    #[test]
    fn quotients_are_rounded_toward_zero(rt: HostRuntime) {
        for (x, quotient) in [
            (0, 0),
            (15, 0),
            (16, 1),
            (-15, 0),
            (-16, -1),
            (-31, -1),
            (100, 6),
        ] {
            assert_eq!(rt; trunc_div(x, 16), quotient);
        }
    }

    /// The greatest number of 63 bits.
    const MOST: u64 = 9223372036854775807;

    /// Divisors, and how often each goes into `MOST`.
    const DIVISORS: [(u64, u64); 10] = [
        (1, MOST),
        (2, 4611686018427387903),
        (3, 3074457345618258602),
        (7, 1317624576693539401),
        (4294967295, 2147483648),
        (4294967296, 2147483647),
        (4294967297, 2147483647),
        (17592186044416, 524287),
        (4611686018427387905, 1),
        (MOST, 1),
    ];

    #[test]
    fn a_divisor_divides_as_the_machine_does(rt: HostRuntime) {
        for (d, into_most) in DIVISORS {
            assert!(rt; 0 < d);
            assert!(rt; d <= MOST);
            let divisor = Divisor::new(d);
            assert_eq!(rt; divisor.divide(0), 0);
            assert_eq!(rt; divisor.divide(d - 1), 0);
            assert_eq!(rt; divisor.divide(d), 1);
            assert_eq!(rt; divisor.divide(d + 1), (d + 1) / d);
            assert_eq!(rt; divisor.divide(MOST), into_most);
            assert_eq!(rt;
                divisor.divide_signed(-9223372036854775807),
                -(into_most as i64)
            );
            assert_eq!(rt; divisor.divide_signed(-15), -15 / d as i64);
        }
    }

    #[test]
    fn a_flow_is_an_eighth_of_the_difference(rt: HostRuntime) {
        for (x, a, y, b, flow) in [
            (100, 1, 0, 1, 6),
            (0, 1, 100, 1, -6),
            // 300 / 32 is 9 in each direction, not 10 in one of them.
            (100, 1, 0, 3, 9),
            (0, 3, 100, 1, -9),
            (25, 1, 75, 3, 0),
            // Products that pass 64 bits.
            (4611686018427387903, 1, 0, 1099511627776, 576460752302899199),
            (
                0,
                1099511627776,
                4611686018427387903,
                1,
                -576460752302899199,
            ),
        ] {
            assert_eq!(rt; flow_with(FaceDivisor::new(a, b), x, a, y, b), flow);
        }
    }

    #[test]
    fn words_have_texts(rt: HostRuntime) -> Result<(), Fail> {
        let alloc = rt.alloc();
        let components = format!(in alloc;
            "{} {} {} {}",
            Component::Atmos,
            Component::Land,
            Component::Ice,
            Component::Ocean
        )?;
        assert_eq!(rt; components.as_str(), "atmos land ice ocean");
        let quantities = format!(in alloc;
            "{} {} {}",
            Quantity::Heat,
            Quantity::Water,
            Quantity::Salt
        )?;
        assert_eq!(rt; quantities.as_str(), "heat water salt");
        let faults = format!(in alloc;
            "{} {}",
            LayoutError::TooManyPieces(72),
            LayoutError::TooFine(0)
        )?;
        assert_eq!(rt; faults.as_str(), "TooManyPieces 72 TooFine 0");
        Ok(())
    }
}
