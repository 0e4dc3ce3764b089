//! Faults at random. The expected ones follow from words that a separate program computed, by
//! SplitMix64 as Sebastiano Vigna published it. That program was tested on the words of the seed
//! 1234567: 6457827717110365317, 3203168211198807973, 9817491932198370423.

use mes_double_faults::{CallFault, EventFault, RandomFaults};

/// A seed, the number of an event, its word modulo 1,000, and its fault.
const EVENTS: [(u32, u64, u32, EventFault); 9] = [
    // The word is 9405607414650848140.
    (0, 1, 140, EventFault::Lost),
    // 17666034860148366723
    (0, 3, 723, EventFault::Cut(91)),
    // 13608149317741381227
    (1, 1, 227, EventFault::Repeated),
    // 8170032527140402033
    (7, 3, 33, EventFault::Cut(100)),
    // 1966980010436751403
    (7, 2, 403, EventFault::Late(1)),
    // 14126966567100297999
    (2023, 3, 999, EventFault::Repeated),
    // 16283057734326482579
    (4_294_967_295, 6, 579, EventFault::Cut(620)),
    // 6036963690941023314
    (4_294_967_295, u64::MAX, 314, EventFault::Late(1)),
    // 16797067683360338446
    (
        4_294_967_295,
        9_223_372_036_854_775_808,
        446,
        EventFault::Cut(84),
    ),
];

/// A seed, the number of a call, its word modulo 1,000, and its fault.
const CALLS: [(u32, u64, u32, CallFault); 8] = [
    // 897299018667680839
    (0, 2, 839, CallFault::Busy),
    // 17996121457536601210
    (0, 1, 210, CallFault::Unanswered),
    // 12773366489153039575
    (1, 1, 575, CallFault::Reset),
    // 17670481865470212032
    (7, 1, 32, CallFault::Busy),
    // 9731951972589170244
    (7, 4, 244, CallFault::Slow(1)),
    // 18035777572219957093
    (2023, 4, 93, CallFault::Unanswered),
    // 17639452597991619656
    (4_294_967_295, 4, 656, CallFault::Reset),
    // 1403011937117940457
    (4_294_967_295, u64::MAX, 457, CallFault::Busy),
];

#[test]
fn an_event_has_the_fault_of_its_word(rt: HostRuntime) {
    for &(seed, number, rest, fault) in &EVENTS {
        let often = RandomFaults {
            seed,
            rate: rest.saturating_add(1),
        };
        let seldom = RandomFaults { seed, rate: rest };
        assert_eq!(rt; often.of_event(number), Some(fault), "{seed} {number}");
        assert_eq!(rt; seldom.of_event(number), None, "{seed} {number}");
    }
}

#[test]
fn a_call_has_the_fault_of_its_word(rt: HostRuntime) {
    for &(seed, number, rest, fault) in &CALLS {
        let often = RandomFaults {
            seed,
            rate: rest.saturating_add(1),
        };
        let seldom = RandomFaults { seed, rate: rest };
        assert_eq!(rt; often.of_call(number), Some(fault), "{seed} {number}");
        assert_eq!(rt; seldom.of_call(number), None, "{seed} {number}");
    }
}
