//! The numbers of arguments, selectors, choices and offsets.
use crate::characters::{DOT, INFINITY, MINUS, PLUS};

/// The maximum number of an argument.
const MAX_ARGUMENT: u32 = 32_767;

/// ICU reads numbers of fewer characters.
const NUMBER_UNITS: usize = 128;

fn is_digit(unit: u16) -> bool {
    matches!(unit, 0x30..=0x39)
}

pub(crate) fn is_all_digits(units: &[u16]) -> bool {
    units.iter().all(|unit| is_digit(*unit))
}

/// Checks whether digits are the number of an argument: at most 32,767, with no 0 before another digit.
pub(crate) fn is_argument_number(digits: &[u16]) -> bool {
    match digits {
        [0x30] => true,
        [0x30, ..] => false,
        _ => {
            let value = digits.iter().fold(
                0u32,
                |value, digit| value.wrapping_mul(10).wrapping_add(u32::from(*digit) & 0xF),
            );
            digits.len() <= 5 && value <= MAX_ARGUMENT
        }
    }
}

/// The state of reading a number's units.
#[derive(Clone, Copy)]
enum Numeral {
    Nothing,
    Sign,
    Digits,
    /// A dot with no digit before it.
    Dot,
    /// Digits and a dot.
    Fraction,
    Exponent,
    ExponentSign,
    ExponentDigits,
    Infinity,
    /// They are no number.
    Invalid,
}

fn after_sign(state: Numeral) -> Numeral {
    match state {
        Numeral::Nothing => Numeral::Sign,
        Numeral::Exponent => Numeral::ExponentSign,
        _ => Numeral::Invalid,
    }
}

fn after_digit(state: Numeral) -> Numeral {
    match state {
        Numeral::Nothing | Numeral::Sign | Numeral::Digits => Numeral::Digits,
        Numeral::Dot | Numeral::Fraction => Numeral::Fraction,
        Numeral::Exponent | Numeral::ExponentSign | Numeral::ExponentDigits => {
            Numeral::ExponentDigits
        }
        Numeral::Infinity | Numeral::Invalid => Numeral::Invalid,
    }
}

fn after_dot(state: Numeral) -> Numeral {
    match state {
        Numeral::Nothing | Numeral::Sign => Numeral::Dot,
        Numeral::Digits => Numeral::Fraction,
        _ => Numeral::Invalid,
    }
}

fn after_unit(state: Numeral, unit: u16) -> Numeral {
    match (unit, state) {
        (0x30..=0x39, _) => after_digit(state),
        (PLUS | MINUS, _) => after_sign(state),
        (DOT, _) => after_dot(state),
        (0x45 | 0x65, Numeral::Digits | Numeral::Fraction) => Numeral::Exponent,
        (INFINITY, Numeral::Nothing | Numeral::Sign) => Numeral::Infinity,
        _ => Numeral::Invalid,
    }
}

/// Checks whether units are a number as C's `strtod` reads it to its end, or infinity.
pub(crate) fn is_number(units: &[u16], may_be_infinite: bool) -> bool {
    let state = units
        .iter()
        .fold(Numeral::Nothing, |state, unit| after_unit(state, *unit));
    match state {
        Numeral::Digits | Numeral::Fraction | Numeral::ExponentDigits => {
            units.len() < NUMBER_UNITS
        }
        Numeral::Infinity => may_be_infinite,
        _ => false,
    }
}
