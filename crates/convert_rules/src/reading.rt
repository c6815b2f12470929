//! The whole number that a text spells.

ghost use Rattle.std.specs.Prelude.{◌≡◌, pos, neg_ℤ, Some, option_map};
ghost use Rattle.std.specs.List.{prefix_len, list_all};
ghost use Rattle.convert_rules.specs.Reading.{digits_in, digits_value, is_digit, is_space, negative, number_in, positive, signed_number};
ghost use Rattle.convert_rules.specs.Partial.{known, magnitude_of, text_number};

const SPACE: u16 = 0x20;

const PLUS: u16 = 0x2B;

const MINUS: u16 = 0x2D;

const DIGIT_ZERO: u16 = 0x30;

const DIGIT_NINE: u16 = 0x39;

/// The greatest number whose negative has 64 bits.
const MAGNITUDE_LIMIT: u64 = 9223372036854775808;

/// What a text is as a whole number.
#[derive(Clone, Copy)]
pub(crate) enum TextNumber {
    /// It spells none.
    NoNumber,
    /// It spells one that has more than 64 bits.
    Beyond,
    /// It spells this one.
    Known(i64),
}

/// The whole number that a text spells.
pub(crate) fn read_number(text: &[u16]) -> TextNumber
    ensures { result ≡ text_number (number_in text.now) }
{
    let (_, text) = text.split_at(count_spaces(text));
    signed_number(text)
}

/// The number of what stands behind the spaces in front.
fn signed_number(text: &[u16]) -> TextNumber
    ensures { result ≡ text_number (signed_number text.now) }
{
    match text {
        [] => TextNumber::Known(0),
        [first, rest @ ..] => {
            if *first == PLUS {
                positive(digits_in(rest))
            } else if *first == MINUS {
                negative(digits_in(rest))
            } else {
                positive(digits_in(text))
            }
        }
    }
}

/// The digits of what is one digit or more and then spaces.
#[tactic(auto, unfolding(crate::specs::Reading::digits_in))]
fn digits_in(units: &[u16]) -> Option<&[u16]>
    ensures { option_map (λ digits. digits.now) result ≡ digits_in units.now }
{
    let count = count_digits(units);
    let (digits, behind) = units.split_at(count);
    if 1 <= count && is_blank(behind) {
        Some(digits)
    } else {
        None
    }
}

/// The number that digits spell.
fn positive(digits: Option<&[u16]>) -> TextNumber
    ensures { result ≡ text_number (positive (option_map (λ digits. digits.now) digits.entry)) }
{
    match digits {
        None => TextNumber::NoNumber,
        Some(digits) => positive_value(digits),
    }
}

/// The negative of the number that digits spell.
fn negative(digits: Option<&[u16]>) -> TextNumber
    ensures { result ≡ text_number (negative (option_map (λ digits. digits.now) digits.entry)) }
{
    match digits {
        None => TextNumber::NoNumber,
        Some(digits) => negative_value(digits),
    }
}

/// The number that digits spell.
#[tactic(auto, unfolding(crate::specs::Partial::magnitude_of, crate::specs::Partial::known))]
fn positive_value(digits: &[u16]) -> TextNumber
    ensures { result ≡ known (pos (digits_value digits.now)) }
{
    match magnitude_of(digits) {
        Some(value) if value < MAGNITUDE_LIMIT => TextNumber::Known(value as i64),
        _ => TextNumber::Beyond,
    }
}

/// The negative of the number that digits spell.
#[tactic(auto, unfolding(crate::specs::Partial::magnitude_of, crate::specs::Partial::known))]
fn negative_value(digits: &[u16]) -> TextNumber
    ensures { result ≡ known (neg_ℤ (pos (digits_value digits.now))) }
{
    match magnitude_of(digits) {
        None => TextNumber::Beyond,
        Some(0) => TextNumber::Known(0),
        Some(value) => TextNumber::Known(-1 - (value - 1) as i64),
    }
}

/// The number that digits spell, if its negative has 64 bits.
fn magnitude_of(digits: &[u16]) -> Option<u64>
    ensures { result ≡ magnitude_of digits.now }
{
    let mut value: u64 = 0;
    for digit in digits {
        if value > MAGNITUDE_LIMIT / 10 {
            return None;
        }
        value = value * 10 + u64::from(digit.saturating_sub(DIGIT_ZERO));
        if value > MAGNITUDE_LIMIT {
            return None;
        }
    }
    Some(value)
}

/// How many spaces a text begins with.
fn count_spaces(text: &[u16]) -> usize
    ensures { result ≡ prefix_len is_space text.now }
{
    text.iter().take_while(|unit| is_space(**unit)).count()
}

/// How many digits a text begins with.
fn count_digits(text: &[u16]) -> usize
    ensures { result ≡ prefix_len is_digit text.now }
{
    text.iter().take_while(|unit| is_digit(**unit)).count()
}

/// Whether it is spaces alone.
fn is_blank(text: &[u16]) -> bool
    ensures { result ≡ list_all is_space text.now }
{
    text.iter().all(|unit| is_space(*unit))
}

fn is_space(unit: u16) -> bool
    ensures { result ≡ is_space unit }
{
    unit == SPACE
}

/// 0 to 9.
fn is_digit(unit: u16) -> bool
    ensures { result ≡ is_digit unit }
{
    (DIGIT_ZERO..=DIGIT_NINE).contains(&unit)
}
