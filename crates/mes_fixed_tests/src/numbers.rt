//! Tests of rounding, writing, sums and the form of numbers, with values from RFC 8259.
use crate::support::{is_word, units_of};
use arrayvec::ArrayString;
use mes_fixed::automaton::{NumberState, may_end, next_state};
use mes_fixed::{MAX_UNITS, Micros, Thousandths, is_number};
use std::alloc::Global;
use std::test::Fail;

/// Texts and their thousandths, rounded, halves up.
const THOUSANDTHS: [(&str, &str); 10] = [
    ("1.0005", "1001"),
    ("1.0004999", "1000"),
    ("5e-4", "1"),
    ("4.9e-4", "0"),
    ("-0.0", "0"),
    ("0e999", "0"),
    ("1000000000000000.0004", "1000000000000000000"),
    ("1000000000000000.0005", "R"),
    ("1e999", "R"),
    ("-1", "R"),
];

#[test]
fn a_half_of_a_thousandth_is_rounded_up(rt: HostRuntime) -> Result<(), Fail> {
    for &(text, word) in &THOUSANDTHS {
        let answer = units_of(Thousandths::read(text.as_bytes()));
        assert!(rt; is_word(rt.alloc(), answer, word)?, "at {text}");
    }
    Ok(())
}

/// Returns whether the number of `units` is written, over the old `text`, and displayed as
/// `written`.
fn is_written(
    alloc: Global,
    units: u64,
    text: &mut ArrayString<24>,
    written: &str,
) -> Result<bool, Fail> {
    let number = Thousandths::of_units(units).ok_or("in range")?;
    number.write(text);
    Ok(text.as_str() == written && format!(in alloc; "{number}")?.as_str() == written)
}

#[test]
fn numbers_are_written_without_needless_zeros(rt: HostRuntime) -> Result<(), Fail> {
    let mut text = ArrayString::new();
    for &(units, written) in &[(1001, "1.001"), (1000, "1.0"), (1, "0.001"), (0, "0.0")] {
        assert!(rt;
            is_written(rt.alloc(), units, &mut text, written)?,
            "{written}"
        );
    }
    let largest = Micros::of_units(MAX_UNITS).ok_or("in range")?;
    largest.write(&mut text);
    assert_eq!(rt; text.as_str(), "1000000000000.0");
    Ok(())
}

#[test]
fn sums_and_differences_stay_within_the_limits(rt: HostRuntime) -> Result<(), Fail> {
    let one = Thousandths::of_units(1).ok_or("in range")?;
    let largest = Thousandths::of_units(MAX_UNITS).ok_or("in range")?;
    let sums = [one.checked_add(one), largest.checked_add(one)];
    assert_eq!(rt; sums, [Thousandths::of_units(2), None]);
    let rests = [one.checked_sub(one), one.checked_sub(largest)];
    assert_eq!(rt; rests, [Some(Thousandths::default()), None]);
    assert_eq!(rt; Thousandths::of_units(MAX_UNITS + 1), None);
    assert!(rt; one < largest);
    Ok(())
}

#[test]
fn a_number_has_the_shape_of_rfc_8259(rt: HostRuntime) {
    for &text in &["0", "-0", "10", "0.5", "-12.50e+3", "1E9", "0e-0"] {
        assert!(rt; is_number(text.as_bytes()), "at {text}");
    }
    for &text in &[
        "", "-", "01", "1.", ".5", "+1", "1e", "1e+", " 1", "1 ", "1\n", "NaN", "0x1",
    ] {
        assert!(rt; !is_number(text.as_bytes()), "at {text}");
    }
    assert_eq!(rt;
        next_state(NumberState::AtStart, b'0'),
        Some(NumberState::AfterZero)
    );
    assert_eq!(rt; next_state(NumberState::AfterZero, b'1'), None);
    assert!(rt; may_end(NumberState::AfterZero));
}
