// Number kinds: what a 32-bit cell means, and the arithmetic on it.
#![tactic(auto)]

mod kind;
mod limits;
mod pulses;
mod ring;
mod tenths;

pub use kind::{NumberKind, is_sound};
pub use limits::Limits;
pub use pulses::PulseCount;
pub use ring::TripRing;
pub use tenths::SignedTenths;

#[cfg(test)]
mod tests {
    use super::*;

    const MINUS_ONE: u32 = 4_294_967_295;

    const LEAST_TENTH: u32 = 4_294_957_297;

    #[test]
    fn pulse_counts_stop_at_both_ends(rt: HostRuntime) {
        assert_eq!(rt; PulseCount.plus(999_999, 1), 999_999);
        assert_eq!(rt; PulseCount.minus(3, 5), 0);
        assert!(rt; PulseCount.lawful(999_999) && !PulseCount.lawful(1_000_000));
        assert_eq!(rt; PulseCount.plus(7, 1_000_000), 0);
    }

    #[test]
    fn trip_ring_goes_round(rt: HostRuntime) {
        assert_eq!(rt; TripRing.plus(9_999, 1), 0);
        assert_eq!(rt; TripRing.minus(0, 1), 9_999);
        assert!(rt; TripRing.lawful(9_999) && !TripRing.lawful(10_000));
        assert_eq!(rt; TripRing.minus(10_000, 1), 0);
    }

    #[test]
    fn tenths_are_signed(rt: HostRuntime) {
        assert_eq!(rt; SignedTenths.minus(LEAST_TENTH, 1), LEAST_TENTH);
        assert_eq!(rt; SignedTenths.plus(9_999, 1), 9_999);
        assert!(rt; SignedTenths.atmost(MINUS_ONE, 1) && MINUS_ONE > 1);
        assert!(rt; !SignedTenths.atmost(1, MINUS_ONE));
        assert_eq!(rt; SignedTenths.plus(10_000, 1), 0);
    }

    // Plus and minus with an unlawful cell in either place give rest.
    fn rests<K: NumberKind>(kind: &K, lawful: u32, unlawful: u32) -> bool {
        let rest = kind.rest();
        kind.plus(lawful, unlawful) == rest
            && kind.plus(unlawful, lawful) == rest
            && kind.minus(lawful, unlawful) == rest
            && kind.minus(unlawful, lawful) == rest
    }

    #[test]
    fn unlawful_arguments_give_rest(rt: HostRuntime) {
        assert!(rt; rests(&PulseCount, 7, 1_000_000));
        assert!(rt; rests(&TripRing, 7, 10_000));
        assert!(rt; rests(&SignedTenths, 7, 10_000));
        assert!(rt; rests(&Limits::new(PulseCount, 100, 300), 150, 99));
        assert_eq!(rt; Limits::new(PulseCount, 100, 300).rest(), 100);
    }

    #[test]
    fn limits_hold_results(rt: HostRuntime) {
        let gauge = Limits::new(PulseCount, 0, 300);
        assert_eq!(rt; gauge.plus(200, 150), 300);
        assert!(rt; gauge.lawful(300) && !gauge.lawful(301));
        assert_eq!(rt; gauge.plus(301, 1), gauge.rest());
        assert!(rt; gauge.atmost(0, 300) && !gauge.atmost(0, 301));
    }

    #[test]
    fn limits_mend_their_ends(rt: HostRuntime) {
        let unlawful = Limits::new(PulseCount, 1_000_000, 2_000_000);
        assert_eq!(rt; unlawful.ends(), (0, 0));
        let turned = Limits::new(TripRing, 300, 100);
        assert_eq!(rt; turned.ends(), (300, 300));
        assert!(rt; turned.lawful(300) && !turned.lawful(100));
        assert_eq!(rt; turned.plus(300, 300), 300);
    }

    #[test]
    fn limits_stand_on_limits(rt: HostRuntime) {
        let pile = Limits::new(Limits::new(SignedTenths, LEAST_TENTH, 500), MINUS_ONE, 300);
        assert_eq!(rt; pile.plus(200, 150), 300);
        assert_eq!(rt; pile.minus(0, 150), MINUS_ONE);
        assert_eq!(rt; pile.rest(), MINUS_ONE);
        assert!(rt; pile.atmost(MINUS_ONE, 0) && !pile.lawful(301));
    }
}
